// The kinds of event: one table of their numbers and fields, by which they are written and read.
ghost use Rattle.ws_record.specs.Batch.{what_text, WhatFits};
ghost use Rattle.ws_record.specs.KindLaws.{what-apart};

use crate::field::{ReadField, WriteField, split_byte};
use std::alloc::Global;
use ws_model::{Intent, NoMemory, Tally, Version, What};

/// Each kind's number, its name (and that of the struct in it), and its fields in their order. Of
/// what size a field is follows from its type.
macro_rules! table_of_kinds {
    ($use:ident $args:tt) => {
        $use! { $args
            1 Asked (Intent) { n, mode, topic, echo, callback, secret, granted, alg }
            2 Confirmed { n, sent }
            3 Declined { n, code }
            4 Unheard { n }
            5 Barred { n, reason }
            6 Noticed { n, heard }
            7 Pinged { topic }
            8 Fetched (Version) { ver, topic, upto, media, own_link, body }
            9 Same { topic, upto }
            10 Unfetched { topic, upto, why }
            11 Pushed { ver, lease, how }
            12 Tally (Tally) {
                now, serial, intent, version,
                answered, expired, unsubscribed, replaced, gone, spent, revoked
            }
            13 Revoked { n, reason }
        }
    };
}

/// The fields as nested pairs.
macro_rules! nested {
    () => { () };
    ($first:ident $($rest:ident)*) => { ($first, nested!($($rest)*)) };
}

/// A kind with its fields, as a value or as a pattern.
macro_rules! what {
    ($kind:ident () $($field:ident)*) => { What::$kind { $($field),* } };
    ($kind:ident ($inner:ident) $($field:ident)*) => { What::$kind($inner { $($field),* }) };
}

macro_rules! write_kind {
    (($what:ident $out:ident) $($number:literal $kind:ident $(($inner:ident))? { $($field:ident),* })*) => {
        match $what {
            $(what!($kind ($($inner)?) $($field)*) => {
                let number: u8 = $number;
                (number, nested!($($field)*)).write($out)
            })*
        }
    };
}

macro_rules! add_kind_len {
    (($what:ident $sum:ident) $($number:literal $kind:ident $(($inner:ident))? { $($field:ident),* })*) => {
        match $what {
            $(what!($kind ($($inner)?) $($field)*) => {
                let number: u8 = $number;
                (number, nested!($($field)*)).add_len($sum)
            })*
        }
    };
}

macro_rules! read_kind {
    (($alloc:ident $number_read:ident $rest:ident) $($number:literal $kind:ident $(($inner:ident))? { $($field:ident),* })*) => {
        match $number_read {
            $($number => {
                let Some((nested!($($field)*), rest)) = ReadField::read($alloc, $rest)? else {
                    return Ok(None);
                };
                Ok(Some((what!($kind ($($inner)?) $($field)*), rest)))
            })*
            _ => Ok(None),
        }
    };
}

impl WriteField for What {
    ghost text = { what_text };

    ghost fits = { WhatFits };

    fn write(&self, out: &mut Vec<u8>) -> Result<(), NoMemory> {
        table_of_kinds!(write_kind(self out))
    }

    fn add_len(&self, sum: u64) -> u64 {
        table_of_kinds!(add_kind_len(self sum))
    }
}

impl ReadField for What {
    fn read(alloc: Global, bytes: &[u8]) -> Result<Option<(What, &[u8])>, NoMemory> {
        let Some((number, rest)) = split_byte(bytes) else {
            return Ok(None);
        };
        table_of_kinds!(read_kind(alloc number rest))
    }

    ghost apart = { what-apart };
}
