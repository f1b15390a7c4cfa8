//! The picture of a run, as the text of an SVG.
#![tactic(auto)]

mod axis;
mod band;
mod bar;
pub mod canvas;
mod flow;
pub mod head;
mod lane;
mod legend;
mod lives;
mod looks;
mod order;
mod panel;
pub mod picture;
mod scale;
mod strip;
pub mod time;
mod titles;
mod words;
