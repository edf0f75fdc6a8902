// The requests, a line each: `enter CELL ADDRESS SIZE`, `store ADDRESS SIZE`, `remove CELL`, `clear`, `find CELL` and `list`.
use alat::Entry;
use anyhow::anyhow;
use memory::{Access, Size};
use std::str::FromStr;

#[derive(Clone, Copy)]
pub(crate) enum Request {
    Enter(Entry),
    Store(Access),
    Remove(u16),
    Clear,
    Find(u16),
    List,
}

fn size(bytes: &str) -> anyhow::Result<Size> {
    match bytes {
        "1" => Ok(Size::One),
        "2" => Ok(Size::Two),
        "4" => Ok(Size::Four),
        "8" => Ok(Size::Eight),
        _ => Err(anyhow!("no such size")),
    }
}

fn access(address: &str, bytes: &str) -> anyhow::Result<Access> {
    Ok(Access {
        address: address.parse::<u64>()?,
        size: size(bytes)?,
    })
}

impl FromStr for Request {
    type Err = anyhow::Error;

    fn from_str(line: &str) -> anyhow::Result<Request> {
        // A word that is not there is read as an empty one, which no request takes.
        let mut words = line.split(' ');
        let name = words.next().unwrap_or("");
        let first = words.next().unwrap_or("");
        let second = words.next().unwrap_or("");
        let third = words.next().unwrap_or("");
        match name {
            "enter" => Ok(Request::Enter(Entry {
                cell: first.parse::<u16>()?,
                access: access(second, third)?,
            })),
            "store" => Ok(Request::Store(access(first, second)?)),
            "remove" => Ok(Request::Remove(first.parse::<u16>()?)),
            "clear" => Ok(Request::Clear),
            "find" => Ok(Request::Find(first.parse::<u16>()?)),
            "list" => Ok(Request::List),
            _ => Err(anyhow!("no such request")),
        }
    }
}
