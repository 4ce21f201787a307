//! The schema: its records, the tables over them, and the look-ups.

ghost use Rattle.std.specs.Prelude.{◌≡◌, ◌<◌, ◌^◌, length, slice_get, IfOk, IfSome};
ghost use Rattle.std.specs.Option.{option_copied, option_and_then};
ghost use Rattle.ad_schema.specs.declared.line.SchemaKind.TheVariants.{Attribute, Class};
ghost use Rattle.ad_schema.specs.Attributes.{names_of, attrs_of, rights_of, attr_named, right_of};
ghost use Rattle.ad_schema.specs.Titles.{right_keys as right_keys_of};
ghost use Rattle.ad_schema.specs.Classes.{cn_of, classes_of, class_named, is_allowed, is_must, is_under, is_a};
ghost use Rattle.ad_schema.specs.Links.{links_of};
ghost use Rattle.ad_schema.specs.Meaning.{is_in_chain};
ghost use Rattle.ad_schema.specs.Sound.{MakeSchema};
ghost use Rattle.ad_schema.specs.Tables.{AreInfosOf, AreAllRowsOf};

use crate::classes::read_classes;
use crate::info::{AttrId, AttrInfo, ClassId, ClassInfo, RightInfo};
use crate::line::SchemaRecord;
use crate::passes::{all_attrs, all_rights};
use ad_ids::Guid;
use ad_schema_classes::{
    ClassLinks, ClassRows, Names, all_rows, allowed_in, is_a, is_above, is_under, must_in,
};
use std::alloc::{AllocError, Global};
use std::marker::Model;

/// A schema, which a contract sees as the list of its records in the order in which they were added.
pub struct Schema {
    records: Vec<SchemaRecord>,
    attrs: Vec<AttrInfo>,
    classes: Vec<ClassInfo>,
    rights: Vec<RightInfo>,
    attr_names: Names,
    class_names: Names,
    right_keys: Names,
    links: Vec<ClassLinks>,
    rows: Vec<ClassRows>,
}

// Written out, so that where it is dropped a proof has a single step.
impl Drop for Schema {
    fn drop(self) {
        let Schema {
            records,
            attrs,
            classes,
            rights,
            attr_names,
            class_names,
            right_keys,
            links,
            rows,
        } = self;
        drop((records, attrs, classes, rights));
        drop((attr_names, class_names, right_keys, links, rows));
    }
}

impl Model for Schema {
    ghost use Rattle.std.specs.Prelude.{List};
    ghost use Rattle.ad_schema.specs.declared.line.SchemaRecord.{SchemaRecord};
    ghost use Rattle.ad_schema.specs.Tables.{AreInfosOf, AreLinksOf, AreAllRowsOf};
    ghost use Rattle.ad_schema.specs.Sound.{MakeSchema};

    ghost Value = { List SchemaRecord };

    ghost view = { λ s. s.records.items };

    ghost invariant = { λ s. record {
      infos : AreInfosOf s.records.items s.attrs.items s.classes.items s.rights.items;
      links : AreLinksOf s.records.items s.attr_names s.class_names s.right_keys s.links.items;
      rows : AreAllRowsOf s.records.items s.rows.items;
      schema : MakeSchema s.records.items;
    } };
}

/// The right at a place, if there is one.
fn right_at(rights: &[RightInfo], place: Option<u32>) -> Option<&RightInfo>
    ensures { option_copied result ≡ option_and_then (slice_get rights.entry.now) place }
{
    match place {
        Some(place) => rights.get(place as usize),
        None => None,
    }
}

fn attr_at(attrs: &[AttrInfo], id: AttrId) -> &AttrInfo
    requires { id.0 < length attrs.now }
    ensures { slice_get attrs.entry.now id.0 ≡ Some result.now }
{
    &attrs[id.0 as usize]
}

fn class_at(classes: &[ClassInfo], id: ClassId) -> &ClassInfo
    requires { id.0 < length classes.now }
    ensures { slice_get classes.entry.now id.0 ≡ Some result.now }
{
    &classes[id.0 as usize]
}

/// What the records of a schema say, read once.
#[derive(Drop)]
struct Tables {
    attrs: Vec<AttrInfo>,
    classes: Vec<ClassInfo>,
    rights: Vec<RightInfo>,
    rows: Vec<ClassRows>,
}

fn tables_of(
    alloc: Global,
    records: &[SchemaRecord],
    links: &[ClassLinks],
    cn: u32,
) -> Result<Tables, AllocError>
    requires links { links.now ≡ links_of records.now }
    requires few { length links.now < 2 ^ 32 }
    requires cn { cn ≡ cn_of (names_of Attribute records.now) }
    ensures infos { IfOk result (λ t. AreInfosOf records.now t.attrs.items t.classes.items
        t.rights.items) }
    ensures rows { IfOk result (λ t. AreAllRowsOf records.now t.rows.items) }
{
    let attrs = all_attrs(alloc, records)?;
    let rights = all_rights(alloc, records)?;
    let classes = read_classes(alloc, records, links, cn)?;
    let rows = all_rows(alloc, links, cn, attrs.as_slice().len())?;
    Ok(Tables {
        attrs,
        classes,
        rights,
        rows,
    })
}

impl Schema {
    /// The schema of records that make one. `links` says what the records of classes name, and `cn`
    /// is the place of the attribute `cn`.
    pub(crate) fn over(
        alloc: Global,
        records: Vec<SchemaRecord>,
        attr_names: Names,
        class_names: Names,
        right_keys: Names,
        links: Vec<ClassLinks>,
        cn: u32,
    ) -> Result<Schema, AllocError>
        requires attrs { attr_names ≡ names_of Attribute records.items }
        requires classes { class_names ≡ names_of Class records.items }
        requires rights { right_keys ≡ right_keys_of records.items }
        requires links { links.items ≡ links_of records.items }
        requires few { length links.items < 2 ^ 32 }
        requires cn { cn ≡ cn_of (names_of Attribute records.items) }
        requires schema { MakeSchema records.items }
        ensures { IfOk result (λ schema. schema ≡ records.items) }
    {
        let tables = tables_of(alloc, records.as_slice(), links.as_slice(), cn)?;
        let Tables {
            attrs,
            classes,
            rights,
            rows,
        } = tables;
        Ok(Schema {
            records,
            attrs,
            classes,
            rights,
            attr_names,
            class_names,
            right_keys,
            links,
            rows,
        })
    }

    /// The attribute of a name, without regard to ASCII case. None where there is none.
    #[tactic(auto, unfolding(crate::specs::Attributes::attr_named))]
    pub fn attr(&self, name: &[u8]) -> Option<AttrId>
        ensures attr { result ≡ attr_named self.now name.now }
        ensures in_range { IfSome result (λ id. id.0 < length (attrs_of self.now)) }
    {
        match self.attr_names.find(name) {
            Some(id) => Some(AttrId(id)),
            None => None,
        }
    }

    /// The class of a name, without regard to ASCII case. None where there is none.
    #[tactic(auto, unfolding(crate::specs::Classes::class_named))]
    pub fn class(&self, name: &[u8]) -> Option<ClassId>
        ensures class { result ≡ class_named self.now name.now }
        ensures in_range { IfSome result (λ id. id.0 < length (classes_of self.now)) }
    {
        match self.class_names.find(name) {
            Some(id) => Some(ClassId(id)),
            None => None,
        }
    }

    /// The right of a GUID. None where there is none.
    pub fn right(&self, guid: &Guid) -> Option<&RightInfo>
        ensures { option_copied result ≡ right_of self.entry.now guid.now }
    {
        right_at(
            self.rights.as_slice(),
            self.right_keys.find_exact(&guid.bytes),
        )
    }

    /// The attribute of this schema's id.
    pub fn attr_info(&self, id: AttrId) -> &AttrInfo
        requires { id.0 < length (attrs_of self.now) }
        ensures { slice_get (attrs_of self.entry.now) id.0 ≡ Some result.now }
    {
        attr_at(self.attrs.as_slice(), id)
    }

    /// The class of this schema's id.
    pub fn class_info(&self, id: ClassId) -> &ClassInfo
        requires { id.0 < length (classes_of self.now) }
        ensures info { slice_get (classes_of self.entry.now) id.0 ≡ Some result.now }
        ensures above { IfSome result.now.above
            (λ above. above.0 < length (classes_of self.entry.now)) }
        ensures naming { result.now.naming.0 < length (attrs_of self.entry.now) }
    {
        class_at(self.classes.as_slice(), id)
    }

    /// The records make a schema: each was added after those before it, and they could be finished. `laws` has what
    /// follows.
    pub fn make_schema(&self)
        ensures { MakeSchema self.now }
    {
        let _ = &self.records;
    }

    /// Whether objects of the class may have the attribute: a class of its set names it as must or
    /// may, or it is the naming attribute. The set is the least that has the class and, with each
    /// class, its superclass and its auxiliary classes ([MS-ADTS] 3.1.1.2.4.6).
    pub fn allowed(&self, class: ClassId, attr: AttrId) -> bool
        requires class { class.0 < length (classes_of self.now) }
        requires attr { attr.0 < length (attrs_of self.now) }
        ensures { result ≡ is_allowed self.now class.0 attr.0 }
    {
        allowed_in(self.rows.as_slice(), class.0, attr.0)
    }

    /// Whether objects of the class must have the attribute: a class of its set names it as must.
    pub fn must(&self, class: ClassId, attr: AttrId) -> bool
        requires class { class.0 < length (classes_of self.now) }
        requires attr { attr.0 < length (attrs_of self.now) }
        ensures { result ≡ is_must self.now class.0 attr.0 }
    {
        must_in(self.rows.as_slice(), class.0, attr.0)
    }

    /// Whether an object of the class `child` may stand below one of the class `parent`: a class of
    /// the child's chain of superclasses names a class of the parent's chain as a possible superior.
    pub fn under(&self, child: ClassId, parent: ClassId) -> bool
        ensures { result ≡ is_under self.now child.0 parent.0 }
    {
        is_under(self.links.as_slice(), child.0, parent.0)
    }

    /// Whether `superior` is the class or one above it.
    pub fn in_chain(&self, class: ClassId, superior: ClassId) -> bool
        ensures { result ≡ is_in_chain self.now class.0 superior.0 }
    {
        is_above(self.links.as_slice(), superior.0, class.0)
    }

    /// Whether the class or one above it has the GUID.
    pub fn is_a(&self, class: ClassId, guid: &Guid) -> bool
        ensures { result ≡ is_a self.now class.0 guid.now }
    {
        is_a(self.links.as_slice(), guid, class.0)
    }

    /// The attributes, in the order of their records: an id is a place here.
    pub fn attrs(&self) -> &[AttrInfo]
        ensures { result.now ≡ attrs_of self.entry.now }
    {
        self.attrs.as_slice()
    }

    /// The classes, in the order of their records: an id is a place here.
    pub fn classes(&self) -> &[ClassInfo]
        ensures { result.now ≡ classes_of self.entry.now }
    {
        self.classes.as_slice()
    }

    /// The rights, in the order of their records.
    pub fn rights(&self) -> &[RightInfo]
        ensures { result.now ≡ rights_of self.entry.now }
    {
        self.rights.as_slice()
    }

    /// The records, in the order in which they were added, with all their lines.
    pub fn records(&self) -> &[SchemaRecord]
        ensures { result.now ≡ self.entry.now }
    {
        self.records.as_slice()
    }
}
