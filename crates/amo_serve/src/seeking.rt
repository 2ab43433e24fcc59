//! Those who ask of the journal, and how they are told.
use crate::client::Client;
use crate::door::Door;
use crate::responder::Reply;
use amo_archive::Archive;
use amo_door::Answer;
use std::alloc::AllocError;
use std::fs::File;
use std::rt::Files;

impl Door {
    /// Answers those who ask of the journal. In a turn it is read once for one who asks what was got, each in its turn, and once for all who ask what
    /// became of messages: so the host is not held up, however many ask and however long the journal is. It has so many lines.
    pub(crate) fn consult<R: Files<File = File>>(
        &mut self,
        rt: &R,
        archive: &mut Archive,
        lines: u64,
    ) -> Result<(), AllocError> {
        self.tell_got(rt, archive)?;
        self.tell_fates(rt, archive, lines)
    }

    /// Tells one of those who ask what was got: the next one behind who was told last.
    fn tell_got<R: Files<File = File>>(
        &mut self,
        rt: &R,
        archive: &mut Archive,
    ) -> Result<(), AllocError> {
        let Some(number) = self.next_seeker() else {
            return Ok(());
        };
        self.told = number;
        for client in self.clients.iter_mut() {
            if client.number == number {
                if let Some(Reply::Got { stream, after }) = &client.reply {
                    let answer = archive.tell_got(rt, *stream, *after)?;
                    client.reply = Some(Reply::Answer(answer));
                }
                return Ok(());
            }
        }
        Ok(())
    }

    /// The number of the client whose turn it is to be told what was got.
    fn next_seeker(&self) -> Option<u64> {
        let mut first = None;
        for client in &self.clients {
            if client.seeks_gets() {
                if client.number > self.told {
                    return Some(client.number);
                }
                first = first.or(Some(client.number));
            }
        }
        first
    }

    /// Reads on for those who ask what became of messages of earlier lives, and tells them once all is read. Nothing is read for those who ask of a life
    /// that the host does not know.
    fn tell_fates<R: Files<File = File>>(
        &mut self,
        rt: &R,
        archive: &mut Archive,
        lines: u64,
    ) -> Result<(), AllocError> {
        for client in self.clients.iter_mut() {
            tell_unknown(client, archive)?;
        }
        if !self.clients.iter().any(|client| client.seeks_fate()) {
            return Ok(());
        }
        match archive.read_on(rt, lines) {
            Ok(false) => Ok(()),
            Ok(true) => {
                for client in self.clients.iter_mut() {
                    tell_fate(client, archive)?;
                }
                Ok(())
            }
            Err(refusal) => {
                for client in self.clients.iter_mut() {
                    if client.seeks_fate() {
                        let answer = Answer::refusal(self.alloc, refusal)?;
                        client.reply = Some(Reply::Answer(answer));
                    }
                }
                Ok(())
            }
        }
    }
}

/// Tells a client that the host does not know the life that it asks of, if it does not.
fn tell_unknown(client: &mut Client, archive: &Archive) -> Result<(), AllocError> {
    let is_known = match &client.reply {
        Some(Reply::Fate { life, .. }) => archive.knows(life),
        _ => true,
    };
    if is_known {
        return Ok(());
    }
    tell_fate(client, archive)
}

/// Tells a client what became of a message of an earlier life, if it asks that.
fn tell_fate(client: &mut Client, archive: &Archive) -> Result<(), AllocError> {
    if let Some(
        Reply::Fate {
            stream,
            number,
            life,
        },
    ) = &client.reply
    {
        let answer = archive.tell_fate(*stream, *number, life)?;
        client.reply = Some(Reply::Answer(answer));
    }
    Ok(())
}
