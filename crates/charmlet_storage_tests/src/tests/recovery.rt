mod answers;
mod caught;
mod changes;
mod halves;
mod logs;
mod rounds;
mod stores;
