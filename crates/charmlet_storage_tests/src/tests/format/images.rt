mod damage;
mod memory;
mod random;
mod stores;
pub mod worked;
mod writers;
