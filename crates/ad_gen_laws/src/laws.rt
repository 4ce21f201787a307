//! The laws, as contracts of functions that do nothing.

ghost use Rattle.std.specs.Prelude.{◌≡◌, ◌<◌, ◌≤◌, ◌+◌, ◌*◌, ℕ, false, None, Ok, Some, List, [], map};
ghost use Rattle.ad_dn.specs.Fold.{folded};
ghost use Rattle.ad_gen.specs.Descriptor.{descriptor_bytes};
ghost use Rattle.ad_gen.specs.Frames.{in_domain};
ghost use Rattle.ad_gen.specs.Ldif.{ldif};
ghost use Rattle.ad_gen.specs.Messages.{modify_message, search_message, wider_list};
ghost use Rattle.ad_gen.specs.Objects.{domain_descriptor, protected_descriptor};
ghost use Rattle.ad_ldap.specs.MessageReading.{message_of};
ghost use Rattle.ad_ldap.specs.Settings.{settings_of};
ghost use Rattle.ad_ldif.specs.Story.{story};
ghost use Rattle.ad_load_objects.specs.Drafts.{Draft};
ghost use Rattle.ad_load.specs.Links.{linked, objects_of};
ghost use Rattle.ad_load.specs.Loaded.{loaded};
ghost use Rattle.ad_load_objects.specs.Objects.{by_parts, drafts_of, nothing_kept, with_lines};
ghost use Rattle.ad_load_records.specs.Records.{records_in};
ghost use Rattle.ad_load_records.specs.Schema.{schema_in};
ghost use Rattle.ad_sd.specs.Reading.{parts_of, sd_of};
ghost use Rattle.ad_value.specs.ValueOf.{sid_of};
ghost use Rattle.ad_dir_model.specs.Loading.{recomputed};
ghost use Rattle.ad_gen_laws.specs.Base.{base_schema};
ghost use Rattle.ad_gen_laws.specs.Before.{unsettled_sample};
ghost use Rattle.ad_gen_laws.specs.Drafts.{drafts};
ghost use Rattle.ad_gen_laws.specs.Made.{made_objects};
ghost use Rattle.ad_gen_laws.specs.Plain.{entries_from, fields_from, records_from};
ghost use Rattle.ad_gen_laws.specs.Sample.{plains, ordered, names_of, rdns_of, unit_name, user_name, user_sid_text};
ghost use Rattle.ad_gen_laws.specs.Sample.{domain, system, sd_holder, administrators, unit, user, IsOfClass};
ghost use Rattle.ad_gen_laws.specs.Sent.{change, search, wider, domain_sd, protected_sd};

/// What the two messages of the sample say: the change of the domain's DACL, and the search for users.
pub fn the_messages_of_the_sample()
    ensures changes { message_of modify_message ≡ Ok change }
    // Its control asks for the DACL alone (4).
    ensures settings { settings_of change ≡ Ok (record { sd_flags = 4; tree = false }) }
    // The list that it writes is the domain's with one entry after.
    ensures list { parts_of (descriptor_bytes wider_list) ≡ Ok wider }
    ensures searches { message_of search_message ≡ Ok search }
{}

/// What the descriptors that stand in the sample's text are.
pub fn the_descriptors_of_the_sample()
    ensures domain { sd_of (descriptor_bytes domain_descriptor) ≡ Ok domain_sd }
    ensures protected { sd_of (descriptor_bytes protected_descriptor) ≡ Ok protected_sd }
{}

/// The sample's text, as LDIF, is these records from its first line on, and has no fault.
pub fn the_story_of_the_sample()
    ensures { (n : ℕ) → n ≤ 1000 → story (ldif n)
        ≡ record { records = entries_from 1 (plains n); stop = None } }
{}

/// The first phase of loading the sample gives these records, each with its name.
pub fn the_records_of_the_sample()
    ensures { (n : ℕ) → n ≤ 1000 → records_in (ldif n) ≡ Ok (records_from 1 (plains n)) }
{}

/// The second phase gives the base schema, whatever the size.
pub fn the_schema_of_the_sample()
    ensures { (n : ℕ) → n ≤ 1000 → schema_in (ldif n) ≡ Ok base_schema }
{}

/// The objects of the sample, by their names, in the order in which the third phase of loading takes them and numbers
/// them from 1 on: the domain, System, the administrators, the units, AdminSDHolder, and the users, unit by unit.
pub fn the_order_of_the_sample()
    ensures { (n : ℕ) → names_of (by_parts (records_from 1 (plains n))) ≡ map rdns_of (ordered n) }
{}

/// What tells the sample's units and users apart: no two units have one name after folding, nor have two users of a
/// unit, and the identifier of each user is the domain's with its number.
pub fn the_users_of_the_sample()
    ensures units { (i k : ℕ) → i < 1000 → k < 1000 → folded (unit_name i) ≡ folded (unit_name k)
        → i ≡ k }
    ensures names { (i j k : ℕ) → i < 1000 → j ≤ 10 → k ≤ 10
        → folded (user_name i j) ≡ folded (user_name i k) → j ≡ k }
    ensures identifiers { (i j : ℕ) → i < 1000 → j ≤ 10
        → sid_of (user_sid_text i j) ≡ Some (in_domain (1000 + 10 * i + j)) }
{}

/// The classes of the sample's objects, by their places in the base schema: domainDNS (1), organizationalUnit (2),
/// container (3), group (4) and user (5); and that each object's name begins with its class's naming attribute.
pub fn the_classes_of_the_sample()
    ensures domain { IsOfClass 1 domain }
    ensures containers { IsOfClass 3 system × IsOfClass 3 sd_holder }
    ensures administrators { IsOfClass 4 administrators }
    ensures units { (i : ℕ) → IsOfClass 2 (unit i) }
    ensures users { (i j : ℕ) → IsOfClass 5 (user i j) }
{}

/// The third phase of loading gives these objects: each unit below the domain, each user below its unit, the
/// administrators with their one member, and each with its identifier.
pub fn the_drafts_of_the_sample()
    ensures { (n : ℕ) → n ≤ 1000 → drafts_of base_schema (records_from 1 (plains n))
        ≡ Ok (drafts n) }
{}

/// The fourth phase of loading makes these objects of them, with their numbers, their values and the one link, and
/// the default descriptor of its class where an object has none of its own. Of no unit there is nobody to be linked.
pub fn the_objects_of_the_sample()
    ensures { (n : ℕ) → 1 ≤ n → n ≤ 1000 → objects_of base_schema (drafts n) ≡ Ok (made_objects n) }
{}

/// The fourth phase of loading has no fault: the sample is within the limits, the default texts of its classes are
/// read, and the directory before its descriptors are computed is this one, with its counters.
pub fn the_links_of_the_sample()
    ensures { (n : ℕ) → 1 ≤ n → n ≤ 1000 → linked base_schema (drafts n) ≡ Ok (unsettled_sample n) }
{}

/// The sample is loaded without a fault, whatever its number of units from 1 on, and its directory is this one, in
/// which each object has its descriptor from the root and nothing is pending.
pub fn the_directory_of_the_sample()
    ensures { (n : ℕ) → 1 ≤ n → n ≤ 1000 → loaded (ldif n) ≡ Ok (recomputed (unsettled_sample n)) }
{}

/// What the lines of the sample's units and containers give, whatever objects stand before them: no values, and of
/// AdminSDHolder alone a descriptor.
pub fn the_lines_of_the_sample()
    ensures units { (drafts : List Draft) (i k : ℕ)
        → with_lines base_schema drafts 2 (fields_from k (unit i).lines) ≡ Ok nothing_kept }
    ensures system { (drafts : List Draft) (k : ℕ)
        → with_lines base_schema drafts 3 (fields_from k system.lines) ≡ Ok nothing_kept }
    ensures holder { (drafts : List Draft) (k : ℕ)
        → with_lines base_schema drafts 3 (fields_from k sd_holder.lines)
        ≡ Ok (record { given = []; sd = Some protected_sd }) }
{}
