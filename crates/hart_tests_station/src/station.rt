//! Tests of `encode`, `request`, `serve`, `master` and `sim`, and of images.
mod encode;
mod images;
mod master;
mod request;
mod scripts;
mod serve;
mod sessions;
