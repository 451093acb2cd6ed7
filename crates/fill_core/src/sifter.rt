use crate::receiver::Receiver;
use bit_classes::{Join, Sieve};
use bit_rows::BitRow;

/// What a receiver may want of the choices of so many candidate rows, on which it has looked.
#[derive(Drop)]
pub struct Sifter<'a, 'b, R: Receiver> {
    pub receiver: &'a R,
    pub findings: &'b R::Findings,
    pub width: usize,
}

impl<R: Receiver> Sieve for Sifter<'_, '_, R> {
    ghost width = { λ s. s.width };

    ghost may = { λ s. R.may s.receiver.now s.findings.now };

    fn may(&self, join: Join, row: &BitRow) -> bool {
        self.receiver.may(self.findings, join, row)
    }
}
