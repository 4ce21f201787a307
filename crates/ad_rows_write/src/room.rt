//! How many bytes the rows of a whole directory take, so that they aren't moved while they are written.

ghost use Rattle.std.specs.Prelude.{◌≡◌, true, Some};
ghost use Rattle.ad_dir_model.specs.Objects.{is_live, numbers, object_of, sd_at};
ghost use Rattle.ad_dir_objects.specs.Seen.{object_seen};

use crate::rows::{meta_body, room_for};
use ad_dir::{Dir, Object};
use ad_schema::{Line, SchemaRecord};
use std::alloc::{AllocError, Global};

// How many bytes a row takes beside its body.
const BESIDE_BODY: usize = 18;

// How many bytes a record's body takes beside its lines.
const BESIDE_LINES: usize = 9;

// How many bytes a line takes beside its name and its value.
const BESIDE_LINE: usize = 16;

// How many bytes the count of the pending list takes, and one entry of it.
const EIGHT: usize = 8;

// Room for the row of an object that was found.
fn described_room(dir: &Dir, number: u32, object: &Object) -> usize
    requires { object_of dir.now.objects number
        ≡ Some (object_seen object.now (sd_at dir.now.objects number)) }
{
    match dir.sd(number) {
        Some(sd) => room_for(object, sd.as_bytes()).saturating_add(BESIDE_BODY),
        None => unreachable!(),
    }
}

fn object_room(dir: &Dir, number: u32) -> usize
    requires { is_live dir.now.objects number ≡ true }
{
    match dir.object(number) {
        Some(object) => described_room(dir, number, object),
        None => unreachable!(),
    }
}

// Room for the rows of the objects of these numbers.
fn objects_room(dir: &Dir, live: &[u32]) -> usize
    requires { live.now ≡ numbers dir.now.objects }
{
    let mut room = 0usize;
    for number in live {
        room = room.saturating_add(object_room(dir, *number));
    }
    room
}

fn lines_room(lines: &[Line]) -> usize {
    let mut room = BESIDE_LINES;
    for line in lines {
        room = room
            .saturating_add(line.name.len())
            .saturating_add(line.value.len())
            .saturating_add(BESIDE_LINE);
    }
    room
}

// Room for the rows of the records of a schema.
fn records_room(records: &[SchemaRecord]) -> usize {
    let mut room = 0usize;
    for record in records {
        room = room
            .saturating_add(lines_room(record.lines.as_slice()))
            .saturating_add(BESIDE_BODY);
    }
    room
}

fn queue_room(len: usize) -> usize {
    len.saturating_mul(EIGHT)
        .saturating_add(EIGHT + BESIDE_BODY)
}

/// Room for all rows of a directory.
///
/// # Errors
///
/// Out of memory.
pub(crate) fn room_for_all(alloc: Global, dir: &Dir) -> Result<usize, AllocError> {
    let live = dir.numbers(alloc)?;
    let counters = meta_body(alloc, dir.meta())?.len();
    Ok(
        objects_room(dir, live.as_slice())
            .saturating_add(records_room(dir.schema().records()))
            .saturating_add(queue_room(dir.queue().len()))
            .saturating_add(counters.saturating_add(BESIDE_BODY)),
    )
}
