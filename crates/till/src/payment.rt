// What an accepted record paid: the digest that was signed, and the card's counter.
#[derive(Clone, Copy)]
pub struct Payment {
    pub counter: u16,
    pub digest: [u8; 32],
}
