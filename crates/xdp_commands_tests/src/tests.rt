mod failing;
mod failing_runs;
mod lines;
mod readers;
mod words;
