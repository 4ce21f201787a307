//! The lines of a record that have a meaning.

ghost use Rattle.std.specs.Prelude.{◌≡◌};
ghost use Rattle.ad_schema.specs.Fields.{name_of, required, fields, is_list, reads};

use crate::line::SchemaKind;
use crate::number::{number_below, signed_bits, truth_of};
use ad_dn::is_type;
use ad_ids::Guid;

/// What a line says.
#[derive(Clone, Copy, Debug, PartialEq, Eq)]
pub enum Field {
    DisplayName,
    AttributeSyntax,
    SchemaGuid,
    SingleValued,
    SecurityGuid,
    SearchFlags,
    LinkId,
    SubClassOf,
    Category,
    NamingAttribute,
    DefaultDescriptor,
    MustContain,
    MayContain,
    Superiors,
    Auxiliary,
    SystemMustContain,
    SystemMayContain,
    SystemSuperiors,
    SystemAuxiliary,
    CommonName,
    RightsGuid,
    ValidAccesses,
    AppliesTo,
}

const ATTRIBUTE: [Field; 7] = [
    Field::DisplayName,
    Field::AttributeSyntax,
    Field::SchemaGuid,
    Field::SingleValued,
    Field::SecurityGuid,
    Field::SearchFlags,
    Field::LinkId,
];

const CLASS: [Field; 14] = [
    Field::DisplayName,
    Field::SchemaGuid,
    Field::SubClassOf,
    Field::Category,
    Field::NamingAttribute,
    Field::DefaultDescriptor,
    Field::MustContain,
    Field::MayContain,
    Field::Superiors,
    Field::Auxiliary,
    Field::SystemMustContain,
    Field::SystemMayContain,
    Field::SystemSuperiors,
    Field::SystemAuxiliary,
];

const RIGHT: [Field; 4] = [
    Field::CommonName,
    Field::RightsGuid,
    Field::ValidAccesses,
    Field::AppliesTo,
];

/// All lines of a meaning in a record of this kind.
pub fn fields(kind: SchemaKind) -> &'static [Field]
    ensures { result.now ≡ fields kind }
{
    match kind {
        SchemaKind::Attribute => &ATTRIBUTE,
        SchemaKind::Class => &CLASS,
        SchemaKind::Right => &RIGHT,
    }
}

/// The lines that a record of this kind has to have.
pub fn required(kind: SchemaKind) -> &'static [Field]
    ensures { result.now ≡ required kind }
{
    match kind {
        SchemaKind::Attribute => &[
            Field::DisplayName,
            Field::AttributeSyntax,
            Field::SchemaGuid,
        ],
        SchemaKind::Class => &[Field::DisplayName, Field::SchemaGuid, Field::SubClassOf],
        SchemaKind::Right => &[Field::CommonName, Field::RightsGuid, Field::ValidAccesses],
    }
}

/// How such a line is named.
pub fn name_of(field: Field) -> &'static [u8]
    ensures { result.now ≡ name_of field }
{
    match field {
        Field::DisplayName => b"lDAPDisplayName",
        Field::AttributeSyntax => b"attributeSyntax",
        Field::SchemaGuid => b"schemaIDGUID",
        Field::SingleValued => b"isSingleValued",
        Field::SecurityGuid => b"attributeSecurityGUID",
        Field::SearchFlags => b"searchFlags",
        Field::LinkId => b"linkID",
        Field::SubClassOf => b"subClassOf",
        Field::Category => b"objectClassCategory",
        Field::NamingAttribute => b"rDNAttID",
        Field::DefaultDescriptor => b"defaultSecurityDescriptor",
        Field::MustContain => b"mustContain",
        Field::MayContain => b"mayContain",
        Field::Superiors => b"possSuperiors",
        Field::Auxiliary => b"auxiliaryClass",
        Field::SystemMustContain => b"systemMustContain",
        Field::SystemMayContain => b"systemMayContain",
        Field::SystemSuperiors => b"systemPossSuperiors",
        Field::SystemAuxiliary => b"systemAuxiliaryClass",
        Field::CommonName => b"cn",
        Field::RightsGuid => b"rightsGuid",
        Field::ValidAccesses => b"validAccesses",
        Field::AppliesTo => b"appliesTo",
    }
}

/// Whether a record may have several such lines.
pub fn is_list(field: Field) -> bool
    ensures { result ≡ is_list field }
{
    matches!(
        field,
        Field::MustContain
            | Field::MayContain
            | Field::Superiors
            | Field::Auxiliary
            | Field::SystemMustContain
            | Field::SystemMayContain
            | Field::SystemSuperiors
            | Field::SystemAuxiliary
            | Field::AppliesTo
    )
}

/// Whether a value can be read.
pub fn reads(field: Field, value: &[u8]) -> bool
    ensures { result ≡ reads field value.now }
{
    match field {
        Field::DisplayName => is_type(value),
        Field::SchemaGuid | Field::SecurityGuid => Guid::from_bytes(value).is_some(),
        Field::SingleValued => truth_of(value).is_some(),
        Field::SearchFlags => signed_bits(value).is_some(),
        Field::LinkId | Field::ValidAccesses => number_below(1 << 32, value).is_some(),
        Field::Category => number_below(1 << 8, value).is_some(),
        Field::RightsGuid | Field::AppliesTo => Guid::from_text(value).is_some(),
        _ => true,
    }
}
