//! Tests of the public calls, one subject a file: what no clause can say.
mod anew;
mod batches;
mod callbacks;
mod closing;
mod coming;
mod failing;
mod policy;
mod reclaiming;
mod standing;
mod submitters;
mod waits;
