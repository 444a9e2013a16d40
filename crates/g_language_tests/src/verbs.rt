//! Verbs: each with its forms and with each way of being bad, derived manually from the language's rules.
mod ample;
mod bad;
mod bad_files;
mod bad_jobs;
mod bad_users;
mod good;
mod good_lines;
mod said;
