mod dropping;
mod ending;
mod flushing;
mod full;
mod lacking;
mod noting;
mod outputs;
mod runs;
