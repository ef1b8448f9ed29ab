mod disk;
mod format;
mod model;
mod recovery;
