// What a line asks for, by its first letter and its numbers.
use crate::calling::Call;
use crate::line::numbers;
use crate::lists::{Lent, Put};
use crate::setting::Setting;

#[derive(Clone, Copy)]
pub enum Command {
    Remark,
    Keep,
    Undo,
    Lend(Lent),
    Put(Put),
    Set(Setting),
    Call(Call),
}

// A letter of its own for each kind of line; every other letter begins a call.
fn of_letter(letter: u8, numbers: [u32; 5]) -> Command {
    if let Some(put) = Put::of_letter(letter, numbers) {
        return Command::Put(put);
    }
    match Setting::of_letter(letter, numbers) {
        Some(setting) => Command::Set(setting),
        None => Command::Call(Call::of_letter(letter, numbers)),
    }
}

impl From<&[u8]> for Command {
    fn from(line: &[u8]) -> Command {
        let numbers = numbers(line);
        match line.first() {
            None | Some(b'#') => Command::Remark,
            Some(b'k') => Command::Keep,
            Some(b'u') => Command::Undo,
            Some(b'l') => Command::Lend(Lent::from(numbers)),
            Some(letter) => of_letter(*letter, numbers),
        }
    }
}
