// What a question is told, as plain structs. In each, number 0 with `present` 1 and the answer; 0 and 0 where there is none; or the number that
// refuses the packet. What is not there is 0. C has no Option and no Result: these structs are its layout, and stand in include/chomkadieu.h.
ghost use Rattle.std.specs.Prelude.{◌≡◌};
ghost use Rattle.text.specs.Told.{maybe};
ghost use Rattle.refusal.specs.Told.{told, told_maybe};
ghost use Rattle.capi.specs.Told.{ValueOf, uuid_by, type_by, field_by, whole_field, source_number, range_by, name_by};

use book::Uuid;
use field::{Field, Range, Source, Span, entry_of};
use questions::PacketType;
use refusal::Refusal;

#[repr(C)]
#[derive(Clone, Copy, Default)]
pub struct ValueTold {
    pub number: u8,
    pub present: u8,
    pub value: u64,
}

#[repr(C)]
#[derive(Clone, Copy, Default)]
pub struct UuidTold {
    pub number: u8,
    pub present: u8,
    pub first: u32,
    pub second: u32,
    pub third: u32,
    pub fourth: u32,
}

// A packet type's value, and the place in the book of the value that names it.
#[repr(C)]
#[derive(Clone, Copy, Default)]
pub struct TypeTold {
    pub number: u8,
    pub present: u8,
    pub value: u32,
    pub name: usize,
}

// A dword's offset and value, the table that describes it (0 none, 1 control, 2 header, 3 protocol), and the place of its entry.
#[repr(C)]
#[derive(Clone, Copy, Default)]
pub struct FieldTold {
    pub number: u8,
    pub present: u8,
    pub offset: u16,
    pub value: u32,
    pub source: u8,
    pub entry: usize,
}

// A bit range: its bits, their value, and its place. There is no number: a range is there or not.
#[repr(C)]
#[derive(Clone, Copy, Default)]
pub struct RangeTold {
    pub present: u8,
    pub low: u8,
    pub high: u8,
    pub value: u32,
    pub place: usize,
}

// A part of the book that is a name: where it starts, and how many bytes it has; both are 0 where there is none.
#[repr(C)]
#[derive(Clone, Copy, Default)]
pub struct NameTold {
    pub at: usize,
    pub len: usize,
}

impl<T: Into<u64>> From<Result<Option<T>, Refusal>> for ValueTold {
    ghost from_gives = { λ answer r. ValueOf T.converts (told_maybe answer) r };

    fn from(answer: Result<Option<T>, Refusal>) -> ValueTold {
        match answer {
            Ok(Some(v)) => ValueTold {
                number: 0,
                present: 1,
                value: v.into(),
            },
            Ok(None) => ValueTold::default(),
            Err(refusal) => ValueTold {
                number: refusal.number(),
                ..ValueTold::default()
            },
        }
    }
}

impl ValueTold {
    // Of a question that never answers none.
    pub fn of<T: Into<u64>>(answer: Result<T, Refusal>) -> ValueTold
        ensures { ValueOf T.converts (told answer) result }
    {
        answer.map(Some).into()
    }
}

impl From<Result<Option<Uuid>, Refusal>> for UuidTold {
    ghost from_gives = { λ answer r. r ≡ uuid_by (told_maybe answer) };

    fn from(answer: Result<Option<Uuid>, Refusal>) -> UuidTold {
        match answer {
            Ok(Some(uuid)) => UuidTold {
                number: 0,
                present: 1,
                first: uuid.first,
                second: uuid.second,
                third: uuid.third,
                fourth: uuid.fourth,
            },
            Ok(None) => UuidTold::default(),
            Err(refusal) => UuidTold {
                number: refusal.number(),
                ..UuidTold::default()
            },
        }
    }
}

impl From<Result<Option<PacketType>, Refusal>> for TypeTold {
    ghost from_gives = { λ answer r. r ≡ type_by (told_maybe answer) };

    fn from(answer: Result<Option<PacketType>, Refusal>) -> TypeTold {
        match answer {
            Ok(Some(found)) => TypeTold {
                number: 0,
                present: 1,
                value: found.value,
                name: found.name.at,
            },
            Ok(None) => TypeTold::default(),
            Err(refusal) => TypeTold {
                number: refusal.number(),
                ..TypeTold::default()
            },
        }
    }
}

impl From<Field> for FieldTold {
    ghost from_gives = { λ f r. r ≡ whole_field f };

    fn from(f: Field) -> FieldTold {
        FieldTold {
            number: 0,
            present: 1,
            offset: f.offset,
            value: f.value,
            source: source_number(f.source),
            entry: entry_of(f),
        }
    }
}

impl From<Result<Option<Field>, Refusal>> for FieldTold {
    ghost from_gives = { λ answer r. r ≡ field_by (told_maybe answer) };

    fn from(answer: Result<Option<Field>, Refusal>) -> FieldTold {
        match answer {
            Ok(Some(f)) => f.into(),
            Ok(None) => FieldTold::default(),
            Err(refusal) => FieldTold {
                number: refusal.number(),
                ..FieldTold::default()
            },
        }
    }
}

fn source_number(source: Source) -> u8
    ensures { result ≡ source_number source }
{
    match source {
        Source::Control(_) => 1,
        Source::Header(_) => 2,
        Source::Protocol(_) => 3,
        Source::Bare => 0,
    }
}

impl From<Option<Range>> for RangeTold {
    ghost from_gives = { λ found r. r ≡ range_by (maybe found) };

    fn from(found: Option<Range>) -> RangeTold {
        match found {
            Some(range) => RangeTold {
                present: 1,
                low: range.low,
                high: range.high,
                value: range.value,
                place: range.place.at,
            },
            None => RangeTold::default(),
        }
    }
}

impl From<Span> for NameTold {
    ghost from_gives = { λ span r. r ≡ name_by span };

    fn from(span: Span) -> NameTold {
        NameTold {
            at: span.at,
            len: span.len,
        }
    }
}
