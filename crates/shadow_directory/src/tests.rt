mod changed;
mod list_pages;
