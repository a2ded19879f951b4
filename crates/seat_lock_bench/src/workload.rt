//! What the command line asks for.
use std::env;
use std::rt::Env;

/// How many threads make how many steps each, and whether to tell when each ended.
#[derive(Drop)]
pub struct Workload {
    pub threads: u32,
    pub acts: u32,
    pub told: bool,
}

fn number_of(word: Option<String>) -> Option<u32> {
    word?.as_str().parse::<u32>().ok()
}

/// The workload that the words behind the program's name give, where the first two are numbers.
pub fn read_workload<R: Env + AllocGlobal>(rt: &R) -> Option<Workload> {
    let Ok(given) = env::args(rt) else {
        return None;
    };
    let mut words = given.skip(1);
    let threads = number_of(words.next())?;
    let acts = number_of(words.next())?;
    let told = words.next().is_some();
    Some(Workload {
        threads,
        acts,
        told,
    })
}
