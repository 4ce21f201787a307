//! The top call: words in, a status out.

ghost use Rattle.std.specs.Prelude.{◌≡◌, ◌↔◌, map, false, None};
ghost use Rattle.std.specs.String.{string_bytes};
ghost use Rattle.site_io.specs.Counts.{HasRisen};
ghost use Rattle.cmd_call.specs.declared.outcome.Outcome.{Outcome};
ghost use Rattle.cmd_call.specs.declared.outcome.Outcome.TheVariants.{NoCommand, SourceFailed, SiteFailed};
ghost use Rattle.cmd_call.specs.Outcome.{status_of};
ghost use Rattle.cmd_call.specs.Store.{HasFailed};
ghost use Rattle.cmd_words.specs.Forms.{command_of};
ghost use Rattle.cmd_words.specs.Table.{has_store};
ghost use Rattle.adsd.specs.Commands.{Does};
ghost use Rattle.adsd.specs.NoSite.{no_site, over_one};

use crate::command::run_command;
use cmd_audit::NullSite;
use cmd_call::Outcome;
use cmd_words::command_of;
use site_io::{Site, Source};
use std::alloc::Global;

/// Does what the words ask for, and answers the program's exit status.
///
/// The words are those after the program's name, and are one of the forms ([`command_of`]) but `diff`, whose two stores
/// want a site each: that is [`run_beside`](crate::beside::run_beside). STORE is any text that isn't empty, and its
/// slots are those of the site. What each command does says [`run_command`]. The statuses are those of `run_beside`.
pub fn run<I: Source, S: Site>(alloc: Global, words: &[String], source: &mut I, site: &mut S) -> u8
    // Exactly where the words are no form with at most one store, and then nothing is done.
    ensures words { (result ≡ status_of NoCommand)
        ↔ (over_one (command_of (map string_bytes words.now)) ≡ None) }
    ensures untouched { result ≡ status_of NoCommand → (source.new ≡ source.old)
        × (site.new ≡ site.old) }
    // The status is that of an outcome, with which the command does what its rules say.
    ensures does { (outcome : Outcome) × (result ≡ status_of outcome)
        × Does I.Source S.Site no_site (over_one (command_of (map string_bytes words.now))) source.old
        source.new site.old site.new tt tt outcome }
    // A failure has its cause outside. A slot is touched only where the words name a store.
    ensures source_failed { result ≡ status_of SourceFailed → HasRisen (I.faults source.old)
        (I.faults source.new) }
    ensures site_failed { result ≡ status_of SiteFailed → HasFailed S.Site site.old site.new }
    ensures slots { has_store (over_one (command_of (map string_bytes words.now))) ≡ false
        → (S.slot_faults site.new ≡ S.slot_faults site.old)
        × (result ≡ status_of SiteFailed → HasRisen (S.out_faults site.old)
        (S.out_faults site.new)) }
{
    match command_of(words) {
        Some(command) => match command.other_store() {
            None => {
                let mut none = NullSite::new();
                run_command(alloc, &command, source, site, &mut none).status()
            }
            Some(_) => Outcome::NoCommand.status(),
        },
        None => Outcome::NoCommand.status(),
    }
}
