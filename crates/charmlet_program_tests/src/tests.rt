mod lab;
mod program;
