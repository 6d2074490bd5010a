mod copies;
mod looks;
mod pushes;
mod stores;
