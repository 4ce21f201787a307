//! The question that `adsd access` is asked.

ghost use Rattle.std.specs.Prelude.{◌≡◌, Ok, IfOk};
ghost use Rattle.ad_bytes.specs.Reading.{GivesUnless};
ghost use Rattle.cmd_plain.specs.Request.{Question, SpellsQuestion};
ghost use Rattle.cmd_plain.specs.RequestReading.{is_memory, question_of};
ghost use Rattle.cmd_plain.specs.RequestView.{question_seen};
ghost use Rattle.cmd_plain.specs.declared.request.RequestFault.TheVariants.{Form as NotOfForm, Memory as NoMemory};

use ad_acl::{Ace, AclFault, read_list};
use ad_bytes::{Input, Short};
use ad_ids::{MAX_SID_BYTES, Sid, SidFault, Token, TokenFault};
use std::alloc::{AllocError, Global};
use thiserror::Error;

/// The largest length of a token, in bytes.
const MAX_TOKEN_BYTES: u32 = 262_144;

/// The largest length of a list, in bytes, whose size stands in sixteen bits.
const MAX_LIST_BYTES: usize = 65_535;

/// The largest length of a question, in bytes: of the token's length, the token, an identifier, a list and a mask.
pub const MAX_REQUEST_BYTES: usize = 4
    + MAX_TOKEN_BYTES as usize
    + MAX_SID_BYTES
    + MAX_LIST_BYTES
    + 4;

/// Why bytes are no question.
#[derive(Clone, Copy, Debug, PartialEq, Eq, Error)]
pub enum RequestFault {
    /// They aren't of the form.
    #[error("the input is not of the form")]
    Form,
    /// Memory ran out.
    #[error("memory ran out")]
    Memory,
}

impl From<Short> for RequestFault {
    ghost from_gives = { λ _ e. e ≡ NotOfForm };

    fn from(_: Short) -> RequestFault {
        RequestFault::Form
    }
}

impl From<SidFault> for RequestFault {
    ghost from_gives = { λ _ e. e ≡ NotOfForm };

    fn from(_: SidFault) -> RequestFault {
        RequestFault::Form
    }
}

impl From<TokenFault> for RequestFault {
    ghost use Rattle.cmd_plain.specs.RequestReading.{of_token};

    ghost from_gives = { λ fault e. e ≡ of_token fault };

    fn from(fault: TokenFault) -> RequestFault {
        match fault {
            TokenFault::Memory => RequestFault::Memory,
            _ => RequestFault::Form,
        }
    }
}

impl From<AclFault> for RequestFault {
    ghost use Rattle.cmd_plain.specs.RequestReading.{of_list};

    ghost from_gives = { λ fault e. e ≡ of_list fault };

    fn from(fault: AclFault) -> RequestFault {
        match fault {
            AclFault::Memory => RequestFault::Memory,
            _ => RequestFault::Form,
        }
    }
}

impl From<AllocError> for RequestFault {
    ghost from_gives = { λ _ e. e ≡ NoMemory };

    fn from(_: AllocError) -> RequestFault {
        RequestFault::Memory
    }
}

/// Who asks, whose the object is, what its DACL has, and which rights are wanted.
#[derive(Drop)]
pub struct Request {
    pub token: Token,
    pub owner: Sid,
    pub dacl: Vec<Ace>,
    pub want: u32,
}

impl Request {
    /// Reads the question that all of the bytes encode: the token's length in four bytes, the most significant
    /// first, at most 262,144; the token; the owner's identifier; the DACL; and the wanted rights
    /// in four bytes, the most significant first.
    ///
    /// # Errors
    ///
    /// `Form` where the bytes aren't of this form, and `Memory` where memory ran out.
    pub fn from_bytes(alloc: Global, bytes: &[u8]) -> Result<Request, RequestFault>
        // What is read is encoded so.
        ensures found { IfOk result (λ request. SpellsQuestion (question_seen request) bytes.now) }
        // Whatever is encoded so is read, unless memory ran out.
        ensures only { (question : Question) → SpellsQuestion question bytes.now
            → GivesUnless is_memory question_seen result (Ok question) }
    {
        Request::whole(alloc, bytes)
    }

    #[tactic(auto, unfolding(crate::specs::RequestReading::question_of))]
    fn whole(alloc: Global, bytes: &[u8]) -> Result<Request, RequestFault>
        ensures { GivesUnless is_memory question_seen result (question_of bytes.now) }
    {
        let mut input = Input::new(bytes);
        let size = input.be32()?;
        if size > MAX_TOKEN_BYTES {
            return Err(RequestFault::Form);
        }
        let text = input.part(size as usize)?;
        let token = Token::from_bytes(alloc, text.rest())?;
        let owner = Sid::read(&mut input)?;
        let dacl = read_list(alloc, &mut input)?;
        let want = input.be32()?;
        if !input.is_empty() {
            return Err(RequestFault::Form);
        }
        Ok(Request {
            token,
            owner,
            dacl,
            want,
        })
    }
}
