mod exact;
mod growth;
mod many;
mod prefixes;
mod refusals;
