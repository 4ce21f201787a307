//! The names of objects: distinguished names, and the names of accounts.

use crate::hint::{Hint, plain};
use crate::near::{
    Nearest, far, is_near, keep, names_of, nearest_to, nearest_within, too_many, want,
};
use ad_dir::{Dir, first_of};
use ad_dn::{Dn, DnFault, read};
use ad_principals::{NameFault, principal_named, sid_of_text};
use ad_schema::AttrId;
use std::alloc::{AllocError, Global};

/// No more objects of the nearest first part are compared by their whole names.
const MOST_ALIKE: usize = 64;

/// However far the whole name is, where the first part is near.
const MOST_FAR: usize = 2048;

// The distinguished name of an object; empty where none is live.
fn dn_text(alloc: Global, dir: &Dir, number: u32) -> Result<Vec<u8>, AllocError> {
    if !dir.is_live(number) {
        return Ok(Vec::new(alloc));
    }
    let dn = dir.dn(alloc, number)?;
    dn.text(alloc)
}

// ---- by the name of an account

// The first value that an object has of an attribute, copied.
fn value_of(
    alloc: Global,
    dir: &Dir,
    number: u32,
    attr: Option<AttrId>,
) -> Result<Option<Vec<u8>>, AllocError> {
    let Some(attr) = attr else {
        return Ok(None);
    };
    let Some(object) = dir.object(number) else {
        return Ok(None);
    };
    match first_of(object.values.as_slice(), attr) {
        Some(value) => Ok(Some(Vec::from_slice(alloc, value.shown())?)),
        None => Ok(None),
    }
}

// The name of an object below its parent, copied.
fn own_name(alloc: Global, dir: &Dir, number: u32) -> Result<Vec<u8>, AllocError> {
    match dir.object(number) {
        Some(object) => Vec::from_slice(alloc, object.name.as_slice()),
        None => Ok(Vec::new(alloc)),
    }
}

// How an object is told: by the name of its account, or by its distinguished name.
fn told(
    alloc: Global,
    dir: &Dir,
    number: u32,
    account: Option<AttrId>,
) -> Result<Vec<u8>, AllocError> {
    match value_of(alloc, dir, number, account)? {
        Some(name) => Ok(name),
        None => dn_text(alloc, dir, number),
    }
}

// Offers the names of an object: of its account, of its user, and its own.
fn offer_account(
    alloc: Global,
    nearest: &mut Nearest,
    dir: &Dir,
    number: u32,
    account: Option<AttrId>,
    user: Option<AttrId>,
) -> Result<(), AllocError> {
    if let Some(name) = value_of(alloc, dir, number, account)? {
        if is_near(alloc, nearest, &name)? {
            keep(nearest, name)?;
        }
    }
    if let Some(name) = value_of(alloc, dir, number, user)? {
        if is_near(alloc, nearest, &name)? {
            keep(nearest, name)?;
        }
    }
    let name = own_name(alloc, dir, number)?;
    if is_near(alloc, nearest, &name)? {
        keep(nearest, told(alloc, dir, number, account)?)?;
    }
    Ok(())
}

fn near_accounts(
    alloc: Global,
    dir: &Dir,
    word: &[u8],
    accounts: bool,
) -> Result<Vec<Vec<u8>>, AllocError> {
    let account = if accounts {
        dir.schema().attr(b"sAMAccountName")
    } else {
        None
    };
    let user = if accounts {
        dir.schema().attr(b"userPrincipalName")
    } else {
        None
    };
    let numbers = dir.numbers(alloc)?;
    let mut nearest = nearest_to(alloc, word)?;
    for number in numbers.as_slice() {
        offer_account(alloc, &mut nearest, dir, *number, account, user)?;
    }
    Ok(names_of(nearest))
}

// ---- by a distinguished name

// The value of its first part.
fn first_value(dn: &Dn) -> Option<&[u8]> {
    match dn.rdns.as_slice() {
        [first, ..] => Some(first.value.as_slice()),
        [] => None,
    }
}

// The objects whose own names are nearest to that of a first part, so many at most.
fn alike(alloc: Global, dir: &Dir, value: &[u8]) -> Result<Vec<u32>, AllocError> {
    let numbers = dir.numbers(alloc)?;
    let mut wanted = want(alloc, value)?;
    let mut least = too_many(value.len());
    let mut found = Vec::new(alloc);
    for number in numbers.as_slice() {
        let name = own_name(alloc, dir, *number)?;
        if let Some(far) = far(alloc, &mut wanted, &name, least)? {
            if far < least {
                least = far;
                found = Vec::new(alloc);
            }
            if found.len() < MOST_ALIKE {
                found.push(*number)?;
            }
        }
    }
    Ok(found)
}

// The nearest of these by their whole names.
fn near_whole(
    alloc: Global,
    dir: &Dir,
    word: &[u8],
    numbers: &[u32],
) -> Result<Vec<Vec<u8>>, AllocError> {
    let mut nearest = nearest_within(alloc, word, MOST_FAR)?;
    for number in numbers {
        let name = dn_text(alloc, dir, *number)?;
        if is_near(alloc, &mut nearest, &name)? {
            keep(&mut nearest, name)?;
        }
    }
    Ok(names_of(nearest))
}

fn near_objects(
    alloc: Global,
    dir: &Dir,
    word: &[u8],
    dn: &Dn,
) -> Result<Vec<Vec<u8>>, AllocError> {
    match first_value(dn) {
        Some(value) => {
            let numbers = alike(alloc, dir, value)?;
            near_whole(alloc, dir, word, numbers.as_slice())
        }
        None => Ok(Vec::new(alloc)),
    }
}

// ---- what is told

// What is told of a distinguished name that nothing has.
fn no_object<'a>(alloc: Global, dir: &Dir, word: &'a str, dn: &Dn) -> Result<Hint<'a>, AllocError> {
    Ok(Hint {
        what: "unknown object",
        word,
        names: near_objects(alloc, dir, word.as_bytes(), dn)?,
        remark: "",
    })
}

// What is told of a text that is no distinguished name.
fn no_name<'a>(
    alloc: Global,
    dir: &Dir,
    word: &'a str,
    accounts: bool,
) -> Result<Hint<'a>, AllocError> {
    Ok(Hint {
        what: if accounts {
            "unknown account"
        } else {
            "no distinguished name:"
        },
        word,
        names: near_accounts(alloc, dir, word.as_bytes(), accounts)?,
        remark: "",
    })
}

// What is told of a text that no object has as its distinguished name, and no account as its name.
fn no_account<'a>(alloc: Global, dir: &Dir, word: &'a str) -> Result<Hint<'a>, AllocError> {
    match read(alloc, word.as_bytes()) {
        Ok(dn) => no_object(alloc, dir, word, &dn),
        Err(DnFault::Memory) => Err(AllocError),
        Err(DnFault::Bad { place: _ }) => no_name(alloc, dir, word, true),
    }
}

/// What is told of the distinguished name that a word is to be, where no object has it.
///
/// # Errors
///
/// Memory ran out.
pub fn unknown_object<'a>(
    alloc: Global,
    dir: &Dir,
    word: &'a str,
) -> Result<Option<Hint<'a>>, AllocError> {
    if word.is_empty() {
        return Ok(Some(plain(alloc, "an empty name is no object's", word, "")));
    }
    match read(alloc, word.as_bytes()) {
        Ok(dn) => match dir.find(alloc, &dn)? {
            Some(_) => Ok(None),
            None => Ok(Some(no_object(alloc, dir, word, &dn)?)),
        },
        Err(DnFault::Memory) => Err(AllocError),
        Err(DnFault::Bad { place: _ }) => Ok(Some(no_name(alloc, dir, word, false)?)),
    }
}

/// What is told of a name, a distinguished one, an identifier or that of an account, where not one object has it, or
/// where the object isn't a principal and has to be.
///
/// # Errors
///
/// Memory ran out.
pub fn unknown_name<'a>(
    alloc: Global,
    dir: &Dir,
    word: &'a str,
    principal: bool,
) -> Result<Option<Hint<'a>>, AllocError> {
    if word.is_empty() {
        return Ok(Some(plain(alloc, "an empty name is no object's", word, "")));
    }
    match principal_named(alloc, dir, word.as_bytes()) {
        Ok(number) if principal && dir.self_sid(number).is_none() => {
            Ok(Some(plain(alloc, "not a principal:", word, " has no objectSid")))
        }
        Ok(_) => Ok(None),
        Err(NameFault::Several) => Ok(Some(plain(alloc, "several accounts are named", word, ""))),
        Err(NameFault::Memory) => Err(AllocError),
        Err(NameFault::NoObject) if sid_of_text(word.as_bytes()).is_some() => {
            Ok(Some(plain(alloc, "unknown identifier", word, ": no object has it")))
        }
        Err(NameFault::NoObject) => Ok(Some(no_account(alloc, dir, word)?)),
    }
}

/// What is told of a word that is to be the text of an identifier, and isn't.
pub fn unknown_identifier<'a>(alloc: Global, word: &'a str) -> Option<Hint<'a>> {
    match sid_of_text(word.as_bytes()) {
        Some(_) => None,
        None => Some(plain(alloc, "unreadable identifier", word, ": one is as S-1-5-2")),
    }
}
