mod belonging;
mod removals;
