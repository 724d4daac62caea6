mod entries;
mod reductions;
mod terms;
