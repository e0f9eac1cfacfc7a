/// What is printed, and the exit status.
#[derive(Debug, Drop)]
pub struct Printed {
    pub text: Vec<u8>,
    pub status: u8,
}
