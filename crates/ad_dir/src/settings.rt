//! The settings of a directory: characters of the dSHeuristics of its directory service.

ghost use Rattle.std.specs.Prelude.{◌≡◌, ◌==◌, true, false, [], slice_get, chars, codes, map};
ghost use Rattle.std.specs.Option.{option_map_or, option_and_then, option_copied};
ghost use Rattle.std.specs.Str.{IsUtf8};
ghost use Rattle.ad_dir_model.specs.Objects.{is_live, object_at};
ghost use Rattle.ad_dir_model.specs.Attributes.{heuristics};
ghost use Rattle.ad_dir_model.specs.Identity.{first_of_attr};
ghost use Rattle.ad_dir_model.specs.Names.{directory_service, admin_sd_holder, child_of_rdn};
ghost use Rattle.ad_dir_model.specs.Settings.{settings, list_object_mode, digit_of, taken_out};

use crate::dir::Dir;
use crate::live::live_object;
use crate::names::{ROOT, typed_child};
use ad_dir_objects::first_of;
use ad_schema::RuleAttr;
use ad_value::Value;
use std::str;

// The child of this common name, of a parent that there is.
fn child_of(dir: &Dir, parent: Option<u32>, name: &[u8]) -> Option<u32>
    requires { IsUtf8 name.now }
    ensures { result ≡ option_and_then
        (λ number. child_of_rdn dir.now number (record { kind = codes "CN"; value = name.now }))
        parent }
{
    match parent {
        Some(number) => typed_child(dir, number, b"CN", name),
        None => None,
    }
}

// CN=Directory Service,CN=Windows NT,CN=Services,CN=Configuration below the root.
fn directory_service(dir: &Dir) -> Option<u32>
    ensures { result ≡ directory_service dir.now }
{
    let configuration = child_of(dir, Some(ROOT), b"Configuration");
    let services = child_of(dir, configuration, b"Services");
    let windows = child_of(dir, services, b"Windows NT");
    child_of(dir, windows, b"Directory Service")
}

// The first dSHeuristics of a live object.
#[tactic(auto, unfolding(ad_dir_model::specs::Identity::first_of_attr, ad_dir_model::specs::Attributes::rule_place))]
fn heuristics(dir: &Dir, number: u32) -> Option<&Value>
    requires { is_live dir.now.objects number ≡ true }
    ensures { option_copied result ≡ first_of_attr (heuristics dir.now.schema)
        (object_at dir.now.objects number) }
{
    match dir.schema().attr_of_rule(RuleAttr::DsHeuristics) {
        Some(attr) => first_of(live_object(dir, number).values.as_slice(), attr),
        None => None,
    }
}

// The character at a place, counted from 0.
fn character_at(text: &str, place: usize) -> Option<char>
    ensures { result ≡ slice_get (chars text.now) place }
{
    let mut rest = text.chars();
    let mut left = place;
    'walk: loop {
        match rest.next() {
            Some(character) => {
                if left == 0 {
                    return Some(character);
                }
                left -= 1;
            }
            None => return None,
        }
    }
}

// The same of bytes that are a text.
fn setting_at(text: &[u8], place: usize) -> Option<char>
    requires { IsUtf8 text.now }
    ensures { result ≡ slice_get (chars text.now) place }
{
    match str::from_utf8(text) {
        Ok(text) => character_at(text, place),
        Err(_) => unreachable!(),
    }
}

// The setting at a place, by the settings of a live object.
fn setting_of(dir: &Dir, number: u32, place: usize) -> Option<char>
    requires { is_live dir.now.objects number ≡ true }
    ensures { result ≡ slice_get (option_map_or (λ v. chars v.shown)
        (first_of_attr (heuristics dir.now.schema) (object_at dir.now.objects number)) []) place }
{
    dir.invariants();
    match heuristics(dir, number) {
        Some(value) => setting_at(value.shown(), place),
        None => None,
    }
}

// The setting at a place.
#[tactic(auto, unfolding(ad_dir_model::specs::Settings::settings))]
fn setting(dir: &Dir, place: usize) -> Option<char>
    ensures { result ≡ slice_get (settings dir.now) place }
{
    dir.invariants();
    match directory_service(dir) {
        Some(number) => setting_of(dir, number, place),
        None => None,
    }
}

// Whether list-object mode is on: whether the third character of the settings is 1.
#[tactic(auto, unfolding(ad_dir_model::specs::Settings::list_object_mode))]
fn list_mode(dir: &Dir) -> bool
    ensures { result ≡ list_object_mode dir.now }
{
    match setting(dir, 2) {
        Some(character) => character == '1',
        None => false,
    }
}

// What a hexadecimal digit says, and 0 for any other character.
#[tactic(auto, unfolding(ad_dir_model::specs::Settings::digit_of))]
fn digit_of(character: char) -> u8
    ensures { result ≡ digit_of character }
{
    let code = character as u32;
    if 48 <= code && code <= 57 {
        return (code - 48) as u8;
    }
    if 65 <= code && code <= 70 {
        return (code - 55) as u8;
    }
    if 97 <= code && code <= 102 {
        return (code - 87) as u8;
    }
    0
}

// Which groups aren't protected, as the bits of the 16th character.
#[tactic(auto, unfolding(ad_dir_model::specs::Settings::taken_out))]
fn taken_out(dir: &Dir) -> u8
    ensures { result ≡ taken_out dir.now }
{
    match setting(dir, 15) {
        Some(character) => digit_of(character),
        None => 0,
    }
}

// ---- another container of a fixed name

// CN=AdminSDHolder,CN=System below the root.
fn admin_sd_holder(dir: &Dir) -> Option<u32>
    ensures { result ≡ admin_sd_holder dir.now }
{
    let system = child_of(dir, Some(ROOT), b"System");
    child_of(dir, system, b"AdminSDHolder")
}

impl Dir {
    /// Whether list-object mode is on ([MS-ADTS] 5.1.3.2). It takes no memory.
    pub fn list_mode(&self) -> bool
        ensures { result ≡ list_object_mode self.now }
    {
        list_mode(self)
    }

    /// Which groups aren't protected, as bits: what the 16th character of the settings says as a hexadecimal digit, 0
    /// where there is none ([MS-ADTS] 6.1.1.2.4.1.2). It takes no memory.
    pub fn taken_out(&self) -> u8
        ensures { result ≡ taken_out self.now }
    {
        taken_out(self)
    }

    /// The object `CN=AdminSDHolder,CN=System` below the root. It takes no memory.
    pub fn admin_sd_holder(&self) -> Option<u32>
        ensures { result ≡ admin_sd_holder self.now }
    {
        admin_sd_holder(self)
    }
}
