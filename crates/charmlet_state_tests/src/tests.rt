mod history;
mod objects;
mod world;
