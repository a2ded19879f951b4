//! What the command line asks for.
use std::env;
use std::rt::Env;

/// What is to be measured of a file.
#[derive(Drop)]
pub enum Asked {
    Make {
        file: String,
        pages: u32,
        slots: u32,
    },
    Put {
        file: String,
        count: u32,
        seed: u64,
    },
    Get {
        file: String,
        count: u32,
        seed: u64,
    },
    Open {
        file: String,
    },
}

fn number_of(word: Option<String>) -> Option<u32> {
    word?.as_str().parse::<u32>().ok()
}

/// What the words behind the program's name ask.
pub fn read_asked<R: Env + AllocGlobal>(rt: &R) -> Option<Asked> {
    let Ok(given) = env::args(rt) else {
        return None;
    };
    let mut words = given.skip(1);
    let verb = words.next()?;
    let file = words.next()?;
    match verb.as_str() {
        "open" => Some(Asked::Open { file }),
        "make" => {
            let pages = number_of(words.next())?;
            let slots = number_of(words.next())?;
            Some(Asked::Make { file, pages, slots })
        }
        "put" => {
            let count = number_of(words.next())?;
            let seed = u64::from(number_of(words.next())?);
            Some(Asked::Put { file, count, seed })
        }
        "get" => {
            let count = number_of(words.next())?;
            let seed = u64::from(number_of(words.next())?);
            Some(Asked::Get { file, count, seed })
        }
        _ => None,
    }
}
