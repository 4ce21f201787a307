//! The base schema, a record of LDIF for each attribute, class and right.

ghost use Rattle.std.specs.Prelude.{OnOk};
ghost use Rattle.std.specs.String.{string_bytes};
ghost use Rattle.ad_bytes.specs.Puts.{Puts};
ghost use Rattle.ad_gen.specs.Schema.{user_guid, computer_guid, naming_attributes, identity_attributes};
ghost use Rattle.ad_gen.specs.Schema.{account_attributes};
ghost use Rattle.ad_gen.specs.Schema.{personal_attributes, attributes, outer_classes, account_classes};
ghost use Rattle.ad_gen.specs.Schema.{password_rights, validated_writes, schema};

use crate::records::{push_attribute, push_class, push_own_class, push_right};
use std::alloc::AllocError;

const USER_GUID: [u8; 16] = [
    0xba, 0x7a, 0x96, 0xbf, 0xe6, 0x0d, 0xd0, 0x11, 0xa2, 0x85, 0, 0xaa, 0, 0x30, 0x49, 0xe2,
];

const COMPUTER_GUID: [u8; 16] = [
    0x86, 0x7a, 0x96, 0xbf, 0xe6, 0x0d, 0xd0, 0x11, 0xa2, 0x85, 0, 0xaa, 0, 0x30, 0x49, 0xe2,
];

#[tactic(auto, unfolding(crate::specs::Schema::naming_attributes))]
fn push_naming_attributes(out: &mut String) -> Result<(), AllocError>
    ensures { OnOk result (Puts (string_bytes out.old) (string_bytes out.new) naming_attributes) }
{
    push_attribute(out, 1, "objectClass", "2.5.5.2", "")?;
    push_attribute(out, 2, "cn", "2.5.5.12", "isSingleValued: TRUE\n")?;
    push_attribute(out, 3, "ou", "2.5.5.12", "isSingleValued: TRUE\n")?;
    push_attribute(out, 4, "dc", "2.5.5.12", "isSingleValued: TRUE\n")?;
    push_attribute(
        out,
        5,
        "distinguishedName",
        "2.5.5.1",
        "isSingleValued: TRUE\n",
    )?;
    push_attribute(out, 6, "name", "2.5.5.12", "isSingleValued: TRUE\n")?;
    Ok(())
}

#[tactic(auto, unfolding(crate::specs::Schema::identity_attributes))]
fn push_identity_attributes(out: &mut String) -> Result<(), AllocError>
    ensures { OnOk result (Puts (string_bytes out.old) (string_bytes out.new) identity_attributes) }
{
    push_attribute(out, 7, "objectSid", "2.5.5.17", "isSingleValued: TRUE\n")?;
    push_attribute(out, 8, "member", "2.5.5.1", "linkID: 2\n")?;
    push_attribute(out, 9, "memberOf", "2.5.5.1", "linkID: 3\n")?;
    push_attribute(
        out,
        10,
        "primaryGroupID",
        "2.5.5.9",
        "isSingleValued: TRUE\n",
    )?;
    push_attribute(out, 11, "adminCount", "2.5.5.9", "isSingleValued: TRUE\n")?;
    push_attribute(
        out,
        12,
        "dSHeuristics",
        "2.5.5.12",
        "isSingleValued: TRUE\n",
    )?;
    Ok(())
}

#[tactic(auto, unfolding(crate::specs::Schema::account_attributes))]
fn push_account_attributes(out: &mut String) -> Result<(), AllocError>
    ensures { OnOk result (Puts (string_bytes out.old) (string_bytes out.new) account_attributes) }
{
    push_attribute(out, 13, "servicePrincipalName", "2.5.5.12", "")?;
    push_attribute(out, 14, "dNSHostName", "2.5.5.12", "isSingleValued: TRUE\n")?;
    push_attribute(out, 15, "unicodePwd", "2.5.5.10", "isSingleValued: TRUE\n")?;
    push_attribute(out, 16, "description", "2.5.5.12", "")?;
    Ok(())
}

#[tactic(auto, unfolding(crate::specs::Schema::personal_attributes))]
fn push_personal_attributes(out: &mut String) -> Result<(), AllocError>
    ensures { OnOk result (Puts (string_bytes out.old) (string_bytes out.new) personal_attributes) }
{
    push_attribute(
        out,
        17,
        "telephoneNumber",
        "2.5.5.12",
        "isSingleValued: TRUE\n\
         attributeSecurityGUID:: AAAAUAAAAECAAAAAAAAAAQ==\n",
    )?;
    push_attribute(
        out,
        18,
        "streetAddress",
        "2.5.5.12",
        "isSingleValued: TRUE\n\
         attributeSecurityGUID:: AAAAUAAAAECAAAAAAAAAAQ==\n",
    )?;
    push_attribute(
        out,
        19,
        "secretCode",
        "2.5.5.12",
        "isSingleValued: TRUE\n\
         searchFlags: 128\n",
    )?;
    Ok(())
}

#[tactic(auto, unfolding(crate::specs::Schema::outer_classes))]
fn push_outer_classes(out: &mut String) -> Result<(), AllocError>
    ensures { OnOk result (Puts (string_bytes out.old) (string_bytes out.new) outer_classes) }
{
    push_own_class(
        out,
        1,
        "top",
        "subClassOf: top\n\
         objectClassCategory: 2\n\
         rDNAttID: cn\n\
         mustContain: objectClass\n\
         mayContain: distinguishedName\n\
         mayContain: name\n\
         mayContain: memberOf\n\
         mayContain: adminCount\n\
         mayContain: description\n",
    )?;
    push_own_class(
        out,
        2,
        "domainDNS",
        "subClassOf: top\n\
         objectClassCategory: 1\n\
         rDNAttID: dc\n\
         defaultSecurityDescriptor: D:(A;;GA;;;SY)\n\
         mayContain: objectSid\n",
    )?;
    push_own_class(
        out,
        3,
        "organizationalUnit",
        "subClassOf: top\n\
         objectClassCategory: 1\n\
         rDNAttID: ou\n\
         defaultSecurityDescriptor: D:(A;;GA;;;SY)\n\
         possSuperiors: domainDNS\n\
         possSuperiors: organizationalUnit\n",
    )?;
    push_own_class(
        out,
        4,
        "container",
        "subClassOf: top\n\
         objectClassCategory: 1\n\
         rDNAttID: cn\n\
         defaultSecurityDescriptor: D:(A;;GA;;;SY)\n\
         mayContain: dSHeuristics\n\
         possSuperiors: domainDNS\n\
         possSuperiors: organizationalUnit\n\
         possSuperiors: container\n",
    )?;
    Ok(())
}

#[tactic(auto, unfolding(crate::specs::Schema::account_classes))]
fn push_account_classes(out: &mut String) -> Result<(), AllocError>
    ensures { OnOk result (Puts (string_bytes out.old) (string_bytes out.new) account_classes) }
{
    push_own_class(
        out,
        5,
        "group",
        "subClassOf: top\n\
         objectClassCategory: 1\n\
         rDNAttID: cn\n\
         defaultSecurityDescriptor: D:(A;;GA;;;SY)\n\
         mustContain: objectSid\n\
         mayContain: member\n\
         possSuperiors: domainDNS\n\
         possSuperiors: organizationalUnit\n\
         possSuperiors: container\n",
    )?;
    push_class(
        out,
        &USER_GUID,
        "user",
        "subClassOf: top\n\
         objectClassCategory: 1\n\
         rDNAttID: cn\n\
         defaultSecurityDescriptor: D:(A;;GA;;;SY)\n\
         mustContain: objectSid\n\
         mayContain: primaryGroupID\n\
         mayContain: servicePrincipalName\n\
         mayContain: unicodePwd\n\
         mayContain: telephoneNumber\n\
         mayContain: streetAddress\n\
         mayContain: secretCode\n\
         possSuperiors: domainDNS\n\
         possSuperiors: organizationalUnit\n\
         possSuperiors: container\n",
    )?;
    push_class(
        out,
        &COMPUTER_GUID,
        "computer",
        "subClassOf: user\n\
         objectClassCategory: 1\n\
         rDNAttID: cn\n\
         defaultSecurityDescriptor: D:(A;;GA;;;SY)\n\
         mayContain: dNSHostName\n\
         possSuperiors: domainDNS\n\
         possSuperiors: organizationalUnit\n\
         possSuperiors: container\n",
    )?;
    Ok(())
}

#[tactic(auto, unfolding(crate::specs::Schema::password_rights))]
fn push_password_rights(out: &mut String) -> Result<(), AllocError>
    ensures { OnOk result (Puts (string_bytes out.old) (string_bytes out.new) password_rights) }
{
    push_right(
        out,
        "Personal",
        "50000000-0000-4000-8000-000000000001",
        "48",
        "bf967aba-0de6-11d0-a285-00aa003049e2",
    )?;
    push_right(
        out,
        "User-Change-Password",
        "ab721a53-1e2f-11d0-9819-00aa0040529b",
        "256",
        "bf967aba-0de6-11d0-a285-00aa003049e2",
    )?;
    push_right(
        out,
        "User-Force-Change-Password",
        "00299570-246d-11d0-a768-00aa006e0529",
        "256",
        "bf967aba-0de6-11d0-a285-00aa003049e2",
    )?;
    Ok(())
}

#[tactic(auto, unfolding(crate::specs::Schema::validated_writes))]
fn push_validated_writes(out: &mut String) -> Result<(), AllocError>
    ensures { OnOk result (Puts (string_bytes out.old) (string_bytes out.new) validated_writes) }
{
    push_right(
        out,
        "Self-Membership",
        "bf9679c0-0de6-11d0-a285-00aa003049e2",
        "8",
        "c0000000-0000-4000-8000-000000000005",
    )?;
    push_right(
        out,
        "Validated-SPN",
        "f3a64788-5306-11d1-a9c5-0000f80367c1",
        "8",
        "bf967a86-0de6-11d0-a285-00aa003049e2",
    )?;
    push_right(
        out,
        "Validated-DNS-Host-Name",
        "72e39547-7b18-11d1-adef-00c04fd8d5cd",
        "8",
        "bf967a86-0de6-11d0-a285-00aa003049e2",
    )?;
    Ok(())
}

#[tactic(auto, unfolding(crate::specs::Schema::attributes))]
fn push_attributes(out: &mut String) -> Result<(), AllocError>
    ensures { OnOk result (Puts (string_bytes out.old) (string_bytes out.new) attributes) }
{
    push_naming_attributes(out)?;
    push_identity_attributes(out)?;
    push_account_attributes(out)?;
    push_personal_attributes(out)?;
    Ok(())
}

/// Puts the base schema at the end.
#[tactic(auto, unfolding(crate::specs::Schema::schema))]
pub(crate) fn push_schema(out: &mut String) -> Result<(), AllocError>
    ensures { OnOk result (Puts (string_bytes out.old) (string_bytes out.new) schema) }
{
    push_attributes(out)?;
    push_outer_classes(out)?;
    push_account_classes(out)?;
    push_password_rights(out)?;
    push_validated_writes(out)?;
    Ok(())
}
