//! UTF-8 a byte at a time.

ghost use Rattle.std.specs.Prelude.{◌≡◌};
ghost use Rattle.ad_dn.specs.Utf8State.{nothing_due, size, least_after, most_after, begun, continued, due_after};

// What the begun character of a value still needs.
#[derive(Clone, Copy)]
pub struct Utf8State {
    // The number of bytes that are due.
    pub more: u8,
    // The least and the greatest byte that may come next.
    pub low: u8,
    pub high: u8,
}

// The largest number of bytes of a value.
pub const MAX_VALUE_BYTES: usize = 1_024;

impl Utf8State {
    pub fn nothing() -> Utf8State
        ensures { result ≡ nothing_due }
    {
        Utf8State {
            more: 0,
            low: 128,
            high: 191,
        }
    }

    fn continued(self, byte: u8) -> Option<Utf8State>
        ensures { result ≡ continued self byte }
    {
        if self.low <= byte && byte <= self.high {
            Some(Utf8State {
                more: self.more.saturating_sub(1),
                low: 128,
                high: 191,
            })
        } else {
            None
        }
    }

    // What is due after one more byte of a value that has so many.
    pub fn after(self, used: usize, byte: u8) -> Option<Utf8State>
        ensures { result ≡ due_after used self byte }
    {
        if self.more == 0 {
            begun(used, byte)
        } else {
            self.continued(byte)
        }
    }
}

// How many bytes a character has that begins with this one.
fn size(byte: u8) -> u8
    ensures { result ≡ size byte }
{
    match byte {
        0..128 => 1,
        128..194 => 0,
        194..224 => 2,
        224..240 => 3,
        240..245 => 4,
        _ => 0,
    }
}

fn least_after(byte: u8) -> u8
    ensures { result ≡ least_after byte }
{
    match byte {
        0xe0 => 0xa0,
        0xf0 => 0x90,
        _ => 0x80,
    }
}

fn most_after(byte: u8) -> u8
    ensures { result ≡ most_after byte }
{
    match byte {
        0xed => 0x9f,
        0xf4 => 0x8f,
        _ => 0xbf,
    }
}

fn begun(used: usize, byte: u8) -> Option<Utf8State>
    ensures { result ≡ begun used byte }
{
    let size = size(byte);
    if size == 0 || used > MAX_VALUE_BYTES - usize::from(size) {
        return None;
    }
    Some(Utf8State {
        more: size - 1,
        low: least_after(byte),
        high: most_after(byte),
    })
}
