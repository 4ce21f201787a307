//! The top call: words in, a status out, with a second site for the command that takes two stores.

ghost use Rattle.std.specs.Prelude.{◌≡◌, ◌↔◌, ◌⊎◌, map, false, None};
ghost use Rattle.std.specs.String.{string_bytes};
ghost use Rattle.site_io.specs.Counts.{HasRisen};
ghost use Rattle.cmd_call.specs.declared.outcome.Outcome.{Outcome};
ghost use Rattle.cmd_call.specs.declared.outcome.Outcome.TheVariants.{NoCommand, SourceFailed, SiteFailed};
ghost use Rattle.cmd_call.specs.Outcome.{status_of};
ghost use Rattle.cmd_call.specs.Store.{HasFailed};
ghost use Rattle.cmd_words.specs.Forms.{command_of};
ghost use Rattle.cmd_words.specs.Table.{has_store};
ghost use Rattle.adsd.specs.Commands.{Does};

use crate::command::run_command;
use cmd_call::Outcome;
use cmd_words::command_of;
use site_io::{Site, Source};
use std::alloc::Global;

/// Does what the words ask for, and answers the program's exit status.
///
/// The words are those after the program's name, and are one of sixteen forms ([`command_of`]). STORE is any text that
/// isn't empty, and its slots are those of the site; those of a second store are those of the other site. What each
/// command does says [`run_command`].
///
/// The statuses are 0 where the command was done and its input read to the end, 1 where the input isn't of the
/// command's form, 2 where the words aren't one of the forms, 3 where the slots represent no directory, or for `load`
/// and `sample` aren't empty, or for `list` and `effective` no object has the name, or for `token`, `who`, `can` and
/// `diff` there is no answer, which a line says, 4 where the source failed, 5 where a site failed, 6 for want of
/// memory, and 7 where `serve` or `audit` took 1,000,000 frames and more bytes were there.
pub fn run_beside<I: Source, S: Site, T: Site>(
    alloc: Global,
    words: &[String],
    source: &mut I,
    site: &mut S,
    other: &mut T,
) -> u8
    // Exactly where the words are no form, and then nothing is done.
    ensures words { (result ≡ status_of NoCommand)
        ↔ (command_of (map string_bytes words.now) ≡ None) }
    ensures untouched { result ≡ status_of NoCommand → (source.new ≡ source.old)
        × (site.new ≡ site.old) × (other.new ≡ other.old) }
    // The status is that of an outcome, with which the command does what its rules say.
    ensures does { (outcome : Outcome) × (result ≡ status_of outcome)
        × Does I.Source S.Site T.Site (command_of (map string_bytes words.now)) source.old
        source.new site.old site.new other.old other.new outcome }
    // A failure has its cause outside. A slot is touched only where the words name a store.
    ensures source_failed { result ≡ status_of SourceFailed → HasRisen (I.faults source.old)
        (I.faults source.new) }
    ensures site_failed { result ≡ status_of SiteFailed → HasFailed S.Site site.old site.new
        ⊎ HasRisen (T.slot_faults other.old) (T.slot_faults other.new) }
    ensures slots { has_store (command_of (map string_bytes words.now)) ≡ false
        → (S.slot_faults site.new ≡ S.slot_faults site.old)
        × (result ≡ status_of SiteFailed → HasRisen (S.out_faults site.old)
        (S.out_faults site.new)) }
{
    match command_of(words) {
        Some(command) => run_command(alloc, &command, source, site, other).status(),
        None => Outcome::NoCommand.status(),
    }
}
