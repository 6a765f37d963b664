// The associated constants of the errors have the numbers of docs/CARD.md (S26, P23): the check proves each
// line.
use puller::PullerError;
use pusher::PusherError;

pub(crate) fn constants() {
    prove!(PusherError::CALL == 1);
    prove!(PusherError::NON_CACHE == 2);
    prove!(PusherError::RETURN == 3);
    prove!(PusherError::RESERVED_CMD == 4);
    prove!(PusherError::IB == 5);
    prove!(PusherError::PROTECTION == 6);
    prove!(PullerError::NoHash as u32 == 1);
    prove!(PullerError::EmptySubchannel as u32 == 2);
    prove!(PullerError::Semaphore1 as u32 == 3);
    prove!(PullerError::Semaphore2 as u32 == 4);
    prove!(PullerError::Semaphore3 as u32 == 5);
    prove!(PullerError::Semaphore4 as u32 == 6);
    prove!(PullerError::NO_HASH == 1);
    prove!(PullerError::EMPTY_SUBCHANNEL == 2);
    prove!(PullerError::SEMAPHORE_1 == 3);
    prove!(PullerError::SEMAPHORE_2 == 4);
    prove!(PullerError::SEMAPHORE_3 == 5);
    prove!(PullerError::SEMAPHORE_4 == 6);
}
