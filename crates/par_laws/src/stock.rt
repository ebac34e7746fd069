// The stock monoids.
pub mod both;
pub mod greatest;
pub mod least;
pub mod lists;
pub mod numbers;
