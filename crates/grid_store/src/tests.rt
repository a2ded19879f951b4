mod asking;
mod faults;
mod script;
mod stopping;
mod worked;
