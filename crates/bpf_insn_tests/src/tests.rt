mod arithmetic;
mod encoding;
mod growth;
mod prefixes;
mod spelling;
