//! VFD and POS: bits in words.
ghost use Rattle.std.specs.Prelude.{◌≡◌, ◌∷◌, IfOk, IfSome, Some, [], fold, if◌then◌else◌};
ghost use Rattle.pp_meaning.specs.Bits.{with_bits};
ghost use Rattle.pp_meaning.specs.Meaning.{after, bits_before, goes_on, opened, put_bits, then_bits, then_position, without_last};
ghost use Rattle.pp_meaning.specs.Standing.{place_of, standing};
ghost use Rattle.pp_meaning.specs.declared.statements.Operation.TheVariants.{Bits, Position};

use crate::bits::{bits_of_fields, bits_used_of, left_after, words_with_bits, zeros_up_to};
use crate::expressions::{Operand, Symbol, decimal_by_names_above};
use crate::statements::{Label, State, WORD};
use std::alloc::{AllocError, Global};

impl State {
    /// Returns whether a VFD continues in the last word.
    fn goes_on(&self, label: Label) -> bool
        ensures { result ≡ goes_on (standing self.now) label }
    {
        match label {
            Label::Empty | Label::Minus => self.used != 0,
            _ => false,
        }
    }

    /// Returns the bits before those of a VFD, in the same word.
    fn bits_before(&self, alloc: Global, label: Label) -> Result<Option<Vec<u8>>, AllocError>
        ensures { IfOk result (λ made. IfSome made (λ bits. bits.items ≡ bits_before (standing self.now) label)) }
    {
        if !self.goes_on(label) {
            return Ok(Some(Vec::new(alloc)));
        }
        match self.words.get(self.words.len().saturating_sub(1)) {
            Some(word) => bits_used_of(alloc, *word, self.used),
            None => Ok(None),
        }
    }

    /// Takes the last word away, which is to be written once more.
    fn take_last(&mut self) -> Option<()>
        ensures { IfSome result (λ done. without_last (standing self.old) ≡ standing self.new) }
    {
        let origin = self.origin.checked_sub(1)?;
        let location = self.location.checked_sub(1)?;
        let count = self.words.len().checked_sub(1)?;
        self.words.truncate(count);
        self.origin = origin;
        self.location = location;
        Some(())
    }

    /// Goes back to the last word, if a VFD continues in it.
    fn go_back(&mut self, label: Label) -> Option<()>
        ensures { IfSome result (λ done. (if goes_on (standing self.old) label then without_last (standing self.old) else standing
            self.old) ≡ standing self.new) }
    {
        if self.goes_on(label) {
            return self.take_last();
        }
        Some(())
    }

    /// Keeps how many bits of the last word are used.
    fn open_after(&mut self, count: usize)
        ensures { opened count (Some (standing self.old)) ≡ Some (standing self.new) }
    {
        if count != 0 {
            self.used = count % WORD as usize;
        }
    }

    /// Puts bits into words from the origin on, or from the word that is not full.
    fn put_bits(
        &mut self,
        alloc: Global,
        label: Label,
        bits: &[u8],
    ) -> Result<Option<()>, AllocError>
        ensures { IfOk result (λ made. IfSome made (λ done. put_bits (standing self.old) label (Some bits.now) ≡ Some
            (standing self.new))) }
    {
        let Some(words) = words_with_bits(alloc, bits)? else {
            return Ok(None);
        };
        if self.go_back(label).is_none() || self.put_words(&words)?.is_none() {
            return Ok(None);
        }
        self.open_after(bits.len());
        Ok(Some(()))
    }

    /// Returns the bits of the fields of a VFD, and those before them in the same word.
    fn bits_with(
        &self,
        alloc: Global,
        symbols: &[Symbol],
        label: Label,
        operands: &[Operand],
    ) -> Result<Option<Vec<u8>>, AllocError>
        ensures { IfOk result (λ made. IfSome made (λ bits. fold (with_bits symbols.now (place_of (standing self.now)))
            (Some (bits_before (standing self.now) label)) operands.now ≡ Some bits.items)) }
    {
        match self.bits_before(alloc, label)? {
            Some(before) => bits_of_fields(alloc, symbols, self.place(), &before, operands),
            None => Ok(None),
        }
    }

    /// VFD, behind its label.
    fn put_fields(
        &mut self,
        alloc: Global,
        symbols: &[Symbol],
        label: Label,
        operands: &[Operand],
    ) -> Result<Option<()>, AllocError>
        ensures { IfOk result (λ made. IfSome made (λ done. then_bits symbols.now (Some (standing self.old)) label operands.now
            ≡ Some (standing self.new))) }
    {
        if operands.is_empty() {
            return Ok(None);
        }
        match self.bits_with(alloc, symbols, label, operands)? {
            Some(bits) => self.put_bits(alloc, label, &bits),
            None => Ok(None),
        }
    }

    /// VFD.
    pub(crate) fn fields(
        &mut self,
        alloc: Global,
        symbols: &[Symbol],
        label: Label,
        operands: &[Operand],
    ) -> Result<Option<()>, AllocError>
        ensures { IfOk result (λ made. IfSome made (λ done. after symbols.now (standing self.old) label Bits operands.now ≡ Some
            (standing self.new))) }
    {
        if self.label(symbols, label).is_none() {
            return Ok(None);
        }
        self.put_fields(alloc, symbols, label, operands)
    }

    /// POS, behind its label.
    fn put_zeros(
        &mut self,
        alloc: Global,
        symbols: &[Symbol],
        label: Label,
        operand: &Operand,
    ) -> Result<Option<()>, AllocError>
        ensures { IfOk result (λ made. IfSome made (λ done. then_position symbols.now (Some (standing self.old)) label operand.now
            ≡ Some (standing self.new))) }
    {
        let Some(mut bits) = self.bits_before(alloc, label)? else {
            return Ok(None);
        };
        let Some(number) = decimal_by_names_above(symbols, self.place(), operand) else {
            return Ok(None);
        };
        let Some(count) = zeros_up_to(left_after(bits.len()), number) else {
            return Ok(None);
        };
        bits.extend_from_slice(&vec![in alloc; 0u8; count]?)?;
        self.put_bits(alloc, label, &bits)
    }

    /// POS.
    pub(crate) fn position(
        &mut self,
        alloc: Global,
        symbols: &[Symbol],
        label: Label,
        operand: &Operand,
    ) -> Result<Option<()>, AllocError>
        ensures { IfOk result (λ made. IfSome made (λ done. after symbols.now (standing self.old) label Position (operand.now ∷ [])
            ≡ Some (standing self.new))) }
    {
        if self.label(symbols, label).is_none() {
            return Ok(None);
        }
        self.put_zeros(alloc, symbols, label, operand)
    }
}
