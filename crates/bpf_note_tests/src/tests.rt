mod notes;
mod shapes;
