// Sheets: their fields and lines, and reading them into columns and into a table.
mod fields;
mod lines;
mod reading;
mod refusals;
mod table;
