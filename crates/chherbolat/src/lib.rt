// The library for other languages, as one archive (docs/ABI.md): each export calls the function of its name and promises what it promises.
#![tactic(auto)]

mod building;
mod decisions;
mod files;
mod filters;
mod frames;
mod ids;
mod info;
mod list;
mod masks;
mod matcher;
mod report;
mod scripts;
