// The tests, by what they pose.
mod arrays;
mod files;
mod fin;
mod meanings;
mod problem;
mod space;
mod space_problems;
