// The operations on words side by side with Python's integers: the result of each case of the input is printed on a line.
#![tactic(auto)]

use anyhow::Context;
use integer::{BitField, Length, Part, Position, Relation, Scale};
use std::fmt::Write as FormatWrite;
use std::io::{Read, Write};

// An operation on words, with what it takes besides.
#[derive(Clone, Copy)]
enum Operation {
    Add,
    AddOne,
    Sub,
    SubOne,
    Shladd(Scale),
    Addp4,
    Shladdp4(Scale),
    And,
    Andcm,
    Or,
    Xor,
    Shl,
    Shr,
    ShrU,
    Shrp(Position),
    Extr(BitField),
    ExtrU(BitField),
    Dep(BitField),
    DepZ(BitField),
    Sxt(Part),
    Zxt(Part),
    SignExtend(Length),
    Popcnt,
    Tbit(Position),
    Compare(Relation),
    Compare4(Relation),
}

// An operation and its two words.
#[derive(Clone, Copy)]
struct Case {
    operation: Operation,
    a: u64,
    b: u64,
}

// The numbers of the input are its own, so these are no conversions of the types.
fn scale(small: u8) -> Scale {
    match small {
        0 => Scale::One,
        1 => Scale::Two,
        2 => Scale::Three,
        _ => Scale::Four,
    }
}

fn part(small: u8) -> Part {
    match small % 3 {
        0 => Part::One,
        1 => Part::Two,
        _ => Part::Four,
    }
}

fn relation(number: u8) -> Relation {
    match number % 6 {
        0 => Relation::Eq,
        1 => Relation::Lt,
        2 => Relation::Ltu,
        3 => Relation::Le,
        4 => Relation::Gt,
        _ => Relation::Ge,
    }
}

impl Operation {
    // The operation of this number.
    fn new(number: u8, field: BitField, small: u8) -> Operation {
        match number {
            0 => Operation::Add,
            1 => Operation::AddOne,
            2 => Operation::Sub,
            3 => Operation::SubOne,
            4 => Operation::Shladd(scale(small)),
            5 => Operation::Addp4,
            6 => Operation::Shladdp4(scale(small)),
            7 => Operation::And,
            8 => Operation::Andcm,
            9 => Operation::Or,
            10 => Operation::Xor,
            11 => Operation::Shl,
            12 => Operation::Shr,
            13 => Operation::ShrU,
            14 => Operation::Shrp(field.position),
            15 => Operation::Extr(field),
            16 => Operation::ExtrU(field),
            17 => Operation::Dep(field),
            18 => Operation::DepZ(field),
            19 => Operation::Sxt(part(small)),
            20 => Operation::Zxt(part(small)),
            21 => Operation::SignExtend(field.length),
            22 => Operation::Popcnt,
            23 => Operation::Tbit(field.position),
            24..=29 => Operation::Compare(relation(number)),
            _ => Operation::Compare4(relation(number)),
        }
    }

    // What it makes of two words.
    fn result(self, a: u64, b: u64) -> u64 {
        match self {
            Operation::Add => integer::add(a, b),
            Operation::AddOne => integer::add_one(a, b),
            Operation::Sub => integer::sub(a, b),
            Operation::SubOne => integer::sub_one(a, b),
            Operation::Shladd(scale) => integer::shladd(a, scale, b),
            Operation::Addp4 => integer::addp4(a, b),
            Operation::Shladdp4(scale) => integer::shladdp4(a, scale, b),
            Operation::And => integer::and(a, b),
            Operation::Andcm => integer::andcm(a, b),
            Operation::Or => integer::or(a, b),
            Operation::Xor => integer::xor(a, b),
            Operation::Shl => integer::shl(a, b),
            Operation::Shr => integer::shr(a, b),
            Operation::ShrU => integer::shr_u(a, b),
            Operation::Shrp(position) => integer::shrp(a, b, position),
            Operation::Extr(field) => integer::extr(a, field),
            Operation::ExtrU(field) => integer::extr_u(a, field),
            Operation::Dep(field) => integer::dep(a, b, field),
            Operation::DepZ(field) => integer::dep_z(a, field),
            Operation::Sxt(part) => integer::sxt(part, a),
            Operation::Zxt(part) => integer::zxt(part, a),
            Operation::SignExtend(length) => integer::sign_extend(a, length),
            Operation::Popcnt => integer::popcnt(a),
            Operation::Tbit(position) => u64::from(integer::tbit(a, position)),
            Operation::Compare(relation) => u64::from(relation.holds(a, b)),
            Operation::Compare4(relation) => u64::from(relation.holds4(a, b)),
        }
    }
}

// The case that these bytes are: the number of the operation, a position, a length less one, a small number, and two words.
fn parse(bytes: &[u8]) -> Option<Case> {
    let ([number, position, length, small], words) = bytes.split_first_chunk::<4>()?;
    let (a, b) = words.split_first_chunk::<8>()?;
    let field = BitField {
        position: Position::new(*position)?,
        length: Length::new(length.checked_add(1)?)?,
    };
    Some(Case {
        operation: Operation::new(*number, field, *small),
        a: u64::from_le_bytes(*a),
        b: u64::from_le_bytes(*b.first_chunk::<8>()?),
    })
}

fn main(rt: HostRuntime) -> anyhow::Result<()> {
    let heap = rt.alloc();
    let mut input = Vec::new(heap);
    rt.stdin().read_to_end(&mut input)?;
    let mut text = String::new(heap);
    for bytes in input.chunks_exact(20) {
        let case = parse(bytes).context("the input ends inside a case")?;
        let word = case.operation.result(case.a, case.b);
        writeln!(text, "{word:016x}")?;
    }
    rt.stdout().write_all(text.as_bytes())?;
    Ok(())
}
