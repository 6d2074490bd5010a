mod archives;
mod hooks;
mod layouts;
mod outlines;
mod refusals;
mod saved;
