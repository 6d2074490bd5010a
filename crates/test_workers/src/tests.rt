mod boards;
mod flags;
mod meetings;
mod runs;
