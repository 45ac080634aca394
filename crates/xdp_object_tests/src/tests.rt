mod constants;
mod growth;
mod object;
mod originals;
mod shapes;
