//! What attributes and classes are to a directory.

ghost use Rattle.std.specs.Prelude.{◌≡◌, ◌<◌, ◌%◌, ◌==◌, ◌||◌, false, length};
ghost use Rattle.std.specs.Option.{option_map_or};
ghost use Rattle.ad_schema.specs.Attributes.{attrs_of};
ghost use Rattle.ad_schema.specs.Classes.{classes_of};
ghost use Rattle.ad_schema.specs.Meaning.{is_neither, is_back_link, is_link, attr_is_link, attr_is_back_link};
ghost use Rattle.ad_schema.specs.Meaning.{is_computed, is_given, is_never_missing, rule_name, counts, attr_of_rule};
ghost use Rattle.ad_schema.specs.Meaning.{if_counts};

use crate::info::{AttrId, AttrInfo, ClassId};
use crate::schema::Schema;
use ad_schema_classes::same_name;
use ad_value::Syntax;

/// An attribute that rules of a directory name. It counts only where it has the syntax that it has in the base
/// schema.
#[derive(Clone, Copy, Debug, PartialEq, Eq)]
pub enum RuleAttr {
    /// objectSid, of syntax 2.5.5.17.
    ObjectSid,
    /// primaryGroupID, of syntax 2.5.5.9.
    PrimaryGroupId,
    /// dSHeuristics, of syntax 2.5.5.12.
    DsHeuristics,
    /// member, of syntax 2.5.5.1 and a link.
    Member,
}

/// Whether an attribute of this name is neither link nor back link.
#[tactic(auto, unfolding(crate::specs::Meaning::is_neither))]
fn is_neither(name: &[u8]) -> bool
    ensures { result ≡ is_neither name.now }
{
    same_name(name, b"objectClass")
        || same_name(name, b"distinguishedName")
        || same_name(name, b"name")
        || same_name(name, b"unicodePwd")
        || same_name(name, b"nTSecurityDescriptor")
}

/// Whether there is a linkID with this remainder by 2.
fn has_link(link: Option<u32>, remainder: u32) -> bool
    ensures { result ≡ option_map_or (λ id. id % 2 == remainder) link false }
{
    match link {
        Some(id) => id % 2 == remainder,
        None => false,
    }
}

#[tactic(auto, unfolding(crate::specs::Meaning::is_back_link))]
fn is_back_link(info: &AttrInfo) -> bool
    ensures { result ≡ is_back_link info.now }
{
    !is_neither(info.name.as_slice()) && has_link(info.link, 1)
}

#[tactic(auto, unfolding(crate::specs::Meaning::is_link))]
fn is_link(info: &AttrInfo) -> bool
    ensures { result ≡ is_link info.now }
{
    !is_neither(info.name.as_slice())
        && has_link(info.link, 0)
        && matches!(info.syntax, Syntax::Name)
}

/// Whether an attribute of this name is made of the object itself.
#[tactic(auto, unfolding(crate::specs::Meaning::is_computed))]
pub fn is_computed(name: &[u8]) -> bool
    ensures { result ≡ is_computed name.now }
{
    same_name(name, b"objectClass")
        || same_name(name, b"distinguishedName")
        || same_name(name, b"name")
        || same_name(name, b"nTSecurityDescriptor")
}

/// Whether each object has an attribute of this name from its beginning.
#[tactic(auto, unfolding(crate::specs::Meaning::is_given))]
fn is_given(name: &[u8]) -> bool
    ensures { result ≡ is_given name.now }
{
    same_name(name, b"objectCategory")
        || same_name(name, b"instanceType")
        || same_name(name, b"objectSid")
        || same_name(name, b"sAMAccountName")
}

/// Whether no object lacks an attribute of this name.
fn is_always_there(name: &[u8]) -> bool
    ensures { result ≡ (is_computed name.now || is_given name.now) }
{
    is_computed(name) || is_given(name)
}

fn name_of_rule(rule: RuleAttr) -> &'static [u8]
    ensures { result.now ≡ rule_name rule }
{
    match rule {
        RuleAttr::ObjectSid => b"objectSid",
        RuleAttr::PrimaryGroupId => b"primaryGroupID",
        RuleAttr::DsHeuristics => b"dSHeuristics",
        RuleAttr::Member => b"member",
    }
}

/// Whether an attribute of the rule's name counts.
#[tactic(auto, unfolding(crate::specs::Meaning::counts))]
fn counts(rule: RuleAttr, info: &AttrInfo) -> bool
    ensures { result ≡ counts rule info.now }
{
    match rule {
        RuleAttr::ObjectSid => matches!(info.syntax, Syntax::Sid),
        RuleAttr::PrimaryGroupId => matches!(info.syntax, Syntax::Integer),
        RuleAttr::DsHeuristics => matches!(info.syntax, Syntax::Unicode),
        RuleAttr::Member => is_link(info),
    }
}

impl Schema {
    /// Whether the attribute is a link: its linkID is even and its syntax 2.5.5.1. objectClass, distinguishedName,
    /// name, unicodePwd and nTSecurityDescriptor are none ([MS-ADTS] 3.1.1.1.6).
    #[tactic(auto, unfolding(crate::specs::Meaning::attr_is_link))]
    pub fn is_link(&self, attr: AttrId) -> bool
        requires { attr.0 < length (attrs_of self.now) }
        ensures { result ≡ attr_is_link self.now attr.0 }
    {
        is_link(self.attr_info(attr))
    }

    /// Whether the attribute is a back link: its linkID is odd. The five names that are no link are no back link
    /// either.
    #[tactic(auto, unfolding(crate::specs::Meaning::attr_is_back_link))]
    pub fn is_back_link(&self, attr: AttrId) -> bool
        requires { attr.0 < length (attrs_of self.now) }
        ensures { result ≡ attr_is_back_link self.now attr.0 }
    {
        is_back_link(self.attr_info(attr))
    }

    /// Whether no object of the class lacks the attribute, given or not: it is the class's naming attribute, or one
    /// of objectClass, distinguishedName, name, nTSecurityDescriptor, objectCategory, instanceType, objectSid and
    /// sAMAccountName.
    #[tactic(auto, unfolding(crate::specs::Meaning::is_never_missing))]
    pub fn never_missing(&self, class: ClassId, attr: AttrId) -> bool
        requires class { class.0 < length (classes_of self.now) }
        requires attr { attr.0 < length (attrs_of self.now) }
        ensures { result ≡ is_never_missing self.now class.0 attr.0 }
    {
        self.class_info(class).naming.0 == attr.0
            || is_always_there(self.attr_info(attr).name.as_slice())
    }

    /// The attribute, where it counts for the rule.
    #[tactic(auto, unfolding(crate::specs::Meaning::if_counts))]
    fn if_counts(&self, rule: RuleAttr, attr: AttrId) -> Option<AttrId>
        requires { attr.0 < length (attrs_of self.now) }
        ensures { result ≡ if_counts self.now rule attr }
    {
        if counts(rule, self.attr_info(attr)) {
            return Some(attr);
        }
        None
    }

    /// The attribute that a rule means: that of its name, where it has the syntax of the base schema, and member only
    /// where it is a link. None: then no object has a value for the rule.
    #[tactic(auto, unfolding(crate::specs::Meaning::attr_of_rule))]
    pub fn attr_of_rule(&self, rule: RuleAttr) -> Option<AttrId>
        ensures { result ≡ attr_of_rule self.now rule }
    {
        match self.attr(name_of_rule(rule)) {
            Some(attr) => self.if_counts(rule, attr),
            None => None,
        }
    }
}
