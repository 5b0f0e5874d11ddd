// The rows of `push`, `part`, `part-end` and `part-drop`.
ghost use Rattle.std.specs.Prelude.{◌≡◌, [], IsTrue, false};
ghost use Rattle.std.specs.FinMap as map;
ghost use Rattle.push_stream.specs.Stream.{sent_in, stream_of};
ghost use Rattle.push_stream.specs.Upload.{continued};
ghost use Rattle.fork_request.specs.Told.{is_done};
ghost use Rattle.fork_ledger.specs.Store.{LeavesStore};
ghost use Rattle.fork_model.specs.Answer.{end_in, named_repository, open_upload, part_answer, part_drop_answer, part_end_answer, push_answer};
ghost use Rattle.fork_host.specs.Bounds.{IsBounded};
ghost use Rattle.fork_host.specs.Handle.{Ready, Touches, Uses, shown_by, staged_by};
ghost use Rattle.fork_host.specs.Own.{KeepsStaged, staged_in, visible_in};
ghost use Rattle.fork_host.specs.Pushed.{view_of};
ghost use Rattle.fork_host.specs.Rows.{Gives, Yields};
ghost use Rattle.fork_host.specs.Safe.{IsSafe};
ghost use Rattle.fork_host.specs.Sent.{sent_names};
ghost use Rattle.fork_host.specs.Shown.{shown};
ghost use Rattle.fork_host.specs.Staged.{IsStaged};

use crate::own::Own;
use crate::replies::{bad_name, done, is_done, is_failed};
use crate::staging::discard;
use crate::taking::{settle_upload, take_body};
use crate::tenant::Tenant;
use crate::uploading::feed;
use fork_request::{Refusal, Reply, RepositoryName};
use loose_store::LooseFiles;
use push_stream::{OpenUpload, read_body};
use std::alloc::Global;

impl Tenant {
    #[tactic(auto, unfolding(fork_model::specs::Answer::push_answer))]
    // Takes commands and objects in one body.
    pub(crate) fn push<S: LooseFiles>(
        &mut self,
        alloc: Global,
        own: &mut Own<'_, S>,
        word: &[u8],
        body: &[u8],
    ) -> Reply
        requires ready { Ready own.old self.old.limit }
        requires staged { IsStaged own.old.vault.now.honest self.old.upload (staged_by own.old) }
        ensures row { IsTrue own.old.vault.now.honest → Yields (push_answer (shown_by self.old own.old) word.now body.now) (shown_by self.old own.old) result (shown self.new own.new.vault.now own.old.tenant.now) }
        ensures safe { IsSafe (IsBounded (sent_in (stream_of body.now)) own.old.vault.now own.new.vault.now) (shown_by self.old own.old) result (shown self.new own.new.vault.now own.old.tenant.now) }
        ensures upload { self.new.upload ≡ self.old.upload }
        ensures own { Uses (sent_names (sent_in (stream_of body.now))) own.old own.new }
        ensures made { self.new.made ≡ self.old.made }
    {
        let Some(name) = RepositoryName::read(word) else {
            return bad_name(alloc, word);
        };
        if !self.repositories.contains(&name) {
            return Reply::Refused(Refusal::NoRepository(name));
        }
        if self.upload.is_some() {
            return Reply::Refused(Refusal::UploadOpen);
        }
        let read = read_body(alloc, body);
        take_body(alloc, &mut self.repositories, own, self.limit, name, read)
    }

    // Takes a piece of an upload. If none is open, begins one.
    pub(crate) fn part<S: LooseFiles>(
        &mut self,
        alloc: Global,
        own: &mut Own<'_, S>,
        body: &[u8],
    ) -> Reply
        requires ready { Ready own.old self.old.limit }
        requires staged { IsStaged own.old.vault.now.honest self.old.upload (staged_by own.old) }
        ensures row { IsTrue own.old.vault.now.honest → Yields (part_answer (shown_by self.old own.old) body.now) (shown_by self.old own.old) result (shown self.new own.new.vault.now own.old.tenant.now) }
        ensures safe { IsSafe (IsBounded (sent_in (continued (open_upload (shown_by self.old own.old).upload) body.now).stream) own.old.vault.now own.new.vault.now) (shown_by self.old own.old) result (shown self.new own.new.vault.now own.old.tenant.now) }
        ensures staged { IsStaged own.old.vault.now.honest self.new.upload (staged_in own.new.vault.now own.old.tenant.now) }
        ensures own { Touches (sent_names (sent_in (continued (open_upload (shown_by self.old own.old).upload) body.now).stream)) own.old own.new }
        ensures made { self.new.made ≡ self.old.made }
    {
        if let Some(upload) = &mut self.upload {
            return feed(alloc, own, upload, body);
        }
        let mut upload = OpenUpload::new(alloc);
        let reply = feed(alloc, own, &mut upload, body);
        if !is_done(&reply) {
            return reply;
        }
        self.upload = Some(upload);
        reply
    }

    // Judges the upload as the body of a push, and ends it, unless a host fault keeps it from being judged.
    pub(crate) fn part_end<S: LooseFiles>(
        &mut self,
        alloc: Global,
        own: &mut Own<'_, S>,
        word: &[u8],
    ) -> Reply
        requires ready { Ready own.old self.old.limit }
        requires staged { IsStaged own.old.vault.now.honest self.old.upload (staged_by own.old) }
        ensures row { IsTrue own.old.vault.now.honest → Yields (part_end_answer (shown_by self.old own.old) word.now) (shown_by self.old own.old) result (shown self.new own.new.vault.now own.old.tenant.now) }
        ensures safe { IsSafe (IsBounded (sent_in (open_upload (shown_by self.old own.old).upload).stream) own.old.vault.now own.new.vault.now) (shown_by self.old own.old) result (shown self.new own.new.vault.now own.old.tenant.now) }
        ensures staged { IsStaged own.old.vault.now.honest self.new.upload (staged_in own.new.vault.now own.old.tenant.now) }
        ensures own { Touches [] own.old own.new }
        ensures made { self.new.made ≡ self.old.made }
    {
        let reply = self.end_upload(alloc, own, word);
        if !is_failed(&reply) {
            self.upload = None;
            discard(own);
        }
        reply
    }

    // Judges the upload as the body of a push, and leaves it open.
    fn end_upload<S: LooseFiles>(
        &mut self,
        alloc: Global,
        own: &mut Own<'_, S>,
        word: &[u8],
    ) -> Reply
        requires ready { Ready own.old self.old.limit }
        requires staged { IsStaged own.old.vault.now.honest self.old.upload (staged_by own.old) }
        ensures row { IsTrue own.old.vault.now.honest → Yields (named_repository (shown_by self.old own.old) word.now (end_in (shown_by self.old own.old) word.now (map.get self.old.repositories word.now)))
            (shown_by self.old own.old) result (view_of (shown_by self.old own.old) self.new.repositories (visible_in own.new.vault.now own.old.tenant.now) self.old.limit) }
        ensures safe { IsSafe (IsBounded (sent_in (open_upload (shown_by self.old own.old).upload).stream) own.old.vault.now own.new.vault.now)
            (shown_by self.old own.old) result (view_of (shown_by self.old own.old) self.new.repositories (visible_in own.new.vault.now own.old.tenant.now) self.old.limit) }
        ensures kept { is_done result ≡ false → KeepsStaged own.old.tenant.now own.old.vault.now own.new.vault.now }
        ensures upload { self.new.upload ≡ self.old.upload }
        ensures limit { self.new.limit ≡ self.old.limit }
        ensures made { self.new.made ≡ self.old.made }
        ensures own { Touches [] own.old own.new }
    {
        let Some(name) = RepositoryName::read(word) else {
            return bad_name(alloc, word);
        };
        if !self.repositories.contains(&name) {
            return Reply::Refused(Refusal::NoRepository(name));
        }
        let finished = match &self.upload {
            Some(upload) => upload.finish(alloc),
            None => return Reply::Refused(Refusal::NoUpload),
        };
        settle_upload(
            alloc,
            &mut self.repositories,
            own,
            self.limit,
            name,
            finished,
        )
    }

    // Discards the upload and what it has staged.
    pub(crate) fn part_drop<S: LooseFiles>(&mut self, alloc: Global, own: &mut Own<'_, S>) -> Reply
        requires ready { Ready own.old self.old.limit }
        requires staged { IsStaged own.old.vault.now.honest self.old.upload (staged_by own.old) }
        ensures row { Gives (part_drop_answer (shown_by self.old own.old)) (shown_by self.old own.old) result (shown self.new own.new.vault.now own.old.tenant.now) }
        ensures store { LeavesStore own.old.vault.now own.new.vault.now }
        ensures staged { IsStaged own.old.vault.now.honest self.new.upload (staged_in own.new.vault.now own.old.tenant.now) }
        ensures own { Touches [] own.old own.new }
        ensures made { self.new.made ≡ self.old.made }
    {
        if self.upload.is_none() {
            return Reply::Refused(Refusal::NoUpload);
        }
        self.upload = None;
        discard(own);
        done(alloc)
    }
}
