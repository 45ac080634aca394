mod constants;
mod growth;
mod maps;
mod objects;
mod programs;
mod small;
mod typed;
