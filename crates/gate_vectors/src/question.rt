// The questions on standard input: their bytes go into the pools.
use crate::pool::{Pools, lend, load};
use records::{Unknown, Words};

#[derive(Clone, Copy)]
pub enum Kind {
    Judge,
    Large,
    Repair,
    Wide,
    Search,
    Read,
}

impl TryFrom<u32> for Kind {
    type Error = Unknown;

    fn try_from(number: u32) -> Result<Kind, Unknown> {
        match number {
            1 => Ok(Kind::Judge),
            2 => Ok(Kind::Large),
            3 => Ok(Kind::Repair),
            4 => Ok(Kind::Wide),
            5 => Ok(Kind::Search),
            6 => Ok(Kind::Read),
            _ => Err(Unknown),
        }
    }
}

// How a record gives the words and the map: byte by byte, or one byte for all words and one for the whole map.
#[derive(Clone, Copy)]
pub enum Form {
    Given,
    Uniform,
}

// The list of permitted methods: so many bytes, and `fill` where a record gives no other one. Those come with their
// places.
#[derive(Clone, Copy)]
pub struct Permit {
    pub bytes: usize,
    pub fill: u8,
    pub listed: u32,
}

impl Permit {
    pub(crate) fn next(input: &mut Words<'_>) -> Permit {
        Permit {
            bytes: input.next_word() as usize,
            fill: input.next_byte(),
            listed: input.next_word(),
        }
    }

    fn next_filled(input: &mut Words<'_>) -> Permit {
        Permit {
            bytes: input.next_word() as usize,
            fill: input.next_byte(),
            listed: 0,
        }
    }

    // At most 64 bytes are given.
    pub(crate) fn load(self, input: &mut Words<'_>, pool: &mut [u8]) -> Result<(), Unknown> {
        if 64 < self.listed {
            return Err(Unknown);
        }
        lend(pool, self.bytes)?.fill(self.fill);
        for _ in 0..self.listed {
            let place = input.next_word() as usize;
            let given = input.next_byte();
            if let Some(byte) = pool.get_mut(place) {
                *byte = given;
            }
        }
        Ok(())
    }
}

// Words and map are so many bytes.
#[derive(Clone, Copy)]
pub struct Question {
    pub level: u32,
    pub sli: u32,
    pub words: usize,
    pub map: usize,
    pub permit: Permit,
}

impl Question {
    // A uniform one lists no bytes.
    pub(crate) fn next(input: &mut Words<'_>, form: Form) -> Question {
        Question {
            level: input.next_word(),
            sli: input.next_word(),
            words: input.next_word() as usize,
            map: input.next_word() as usize,
            permit: match form {
                Form::Given => Permit::next(input),
                Form::Uniform => Permit::next_filled(input),
            },
        }
    }

    // Reads the bytes of a record. At most 1,024 bytes of words and 256 of the map are given, each by itself.
    pub(crate) fn load(
        self,
        input: &mut Words<'_>,
        form: Form,
        pools: &mut Pools<'_>,
    ) -> Result<(), Unknown> {
        self.permit.load(input, pools.permit)?;
        match form {
            Form::Given => {
                if 1024 < self.words || 256 < self.map {
                    return Err(Unknown);
                }
                load(input, pools.words, self.words);
                load(input, pools.map, self.map);
            }
            Form::Uniform => {
                lend(pools.words, self.words)?.fill(input.next_byte());
                lend(pools.map, self.map)?.fill(input.next_byte());
            }
        }
        Ok(())
    }
}
