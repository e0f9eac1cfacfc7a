mod asked_again;
mod plans;
mod texts;
mod texts_made;
